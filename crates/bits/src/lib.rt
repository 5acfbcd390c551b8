// Three bits by their places, and as a number 0 to 7: what masks and flags are made of.

#![tactic(auto)]

ghost use Rattle.std.specs.Prelude.{◌≡◌};
ghost use Rattle.bits.specs.Bits.{bits_of, mask_of, either, both, without, some};

use std::ops::{BitAnd, BitOr, Sub};

// Bits 0, 1 and 2.
#[derive(Clone, Copy)]
pub struct Bits {
    pub b0: bool,
    pub b1: bool,
    pub b2: bool,
}

// The low three bits of a number.
impl From<u8> for Bits {
    ghost from_gives = { λ n b. b ≡ bits_of n };

    fn from(n: u8) -> Bits {
        Bits {
            b0: n % 2 == 1,
            b1: n / 2 % 2 == 1,
            b2: n / 4 % 2 == 1,
        }
    }
}

// The number of three bits: the sum of 1, 2, 4.
impl From<Bits> for u8 {
    ghost from_gives = { λ b n. n ≡ mask_of b };

    fn from(b: Bits) -> u8 {
        u8::from(b.b0) + 2 * u8::from(b.b1) + 4 * u8::from(b.b2)
    }
}

// The bits of either, bit by bit.
impl BitOr for Bits {
    type Output = Bits;

    ghost bitor_gives = { λ a b r. r ≡ either a b };

    fn bitor(self, other: Bits) -> Bits {
        Bits {
            b0: self.b0 || other.b0,
            b1: self.b1 || other.b1,
            b2: self.b2 || other.b2,
        }
    }
}

// The bits that are in both.
impl BitAnd for Bits {
    type Output = Bits;

    ghost bitand_gives = { λ a b r. r ≡ both a b };

    fn bitand(self, other: Bits) -> Bits {
        Bits {
            b0: self.b0 && other.b0,
            b1: self.b1 && other.b1,
            b2: self.b2 && other.b2,
        }
    }
}

// The bits of the first that are not in the second.
impl Sub for Bits {
    type Output = Bits;

    ghost sub_gives = { λ a b r. r ≡ without a b };

    fn sub(self, other: Bits) -> Bits {
        Bits {
            b0: self.b0 && !other.b0,
            b1: self.b1 && !other.b1,
            b2: self.b2 && !other.b2,
        }
    }
}

impl Bits {
    // Whether one of the three is set.
    pub fn some(self) -> bool
        ensures { result ≡ some self }
    {
        self.b0 || self.b1 || self.b2
    }
}
