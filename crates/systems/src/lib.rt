// A value for each of systems 1, 2 and 3, and one for each of ends 0 to 3.

#![tactic(auto)]

ghost use Rattle.std.specs.Prelude.{◌≡◌, ◌&&◌};

use bits::Bits;

// One for each of systems 1, 2 and 3.
#[derive(Clone, Copy)]
pub struct Systems<T> {
    pub a: T,
    pub b: T,
    pub c: T,
}

impl<T: Copy> Systems<T> {
    // The same for each.
    pub fn same(x: T) -> Systems<T>
        ensures { result ≡ record { a = x; b = x; c = x } }
    {
        Systems { a: x, b: x, c: x }
    }

    // What a rule makes of each.
    pub fn map<U, F: Fn(T) -> U>(self, rule: F) -> Systems<U>
        requires a { F.pre rule self.a }
        requires b { F.pre rule self.b }
        requires c { F.pre rule self.c }
        ensures of_a { F.post rule self.a result.a }
        ensures of_b { F.post rule self.b result.b }
        ensures of_c { F.post rule self.c result.c }
    {
        Systems {
            a: rule(self.a),
            b: rule(self.b),
            c: rule(self.c),
        }
    }

    // What a rule makes of each and of that of the same system beside it.
    pub fn map_with<V: Copy, U, F: Fn(T, V) -> U>(self, other: Systems<V>, rule: F) -> Systems<U>
        requires a { F.pre rule self.a other.a }
        requires b { F.pre rule self.b other.b }
        requires c { F.pre rule self.c other.c }
        ensures of_a { F.post rule self.a other.a result.a }
        ensures of_b { F.post rule self.b other.b result.b }
        ensures of_c { F.post rule self.c other.c result.c }
    {
        Systems {
            a: rule(self.a, other.a),
            b: rule(self.b, other.b),
            c: rule(self.c, other.c),
        }
    }
}

impl Systems<bool> {
    // Whether it is so of each.
    pub fn all(self) -> bool
        ensures { result ≡ (self.a && (self.b && self.c)) }
    {
        self.a & (self.b & self.c)
    }
}

// A bit for each.
impl From<Systems<bool>> for Bits {
    ghost from_gives = { λ s b. b ≡ record { b0 = s.a; b1 = s.b; b2 = s.c } };

    fn from(s: Systems<bool>) -> Bits {
        Bits {
            b0: s.a,
            b1: s.b,
            b2: s.c,
        }
    }
}

// One for each of ends 0 to 3.
#[derive(Clone, Copy)]
pub struct Ends<T> {
    pub e0: T,
    pub e1: T,
    pub e2: T,
    pub e3: T,
}

impl<T: Copy> Ends<T> {
    // The same for each.
    pub fn same(x: T) -> Ends<T>
        ensures { result ≡ record { e0 = x; e1 = x; e2 = x; e3 = x } }
    {
        Ends {
            e0: x,
            e1: x,
            e2: x,
            e3: x,
        }
    }

    // What a rule makes of each.
    pub fn map<U, F: Fn(T) -> U>(self, rule: F) -> Ends<U>
        requires e0 { F.pre rule self.e0 }
        requires e1 { F.pre rule self.e1 }
        requires e2 { F.pre rule self.e2 }
        requires e3 { F.pre rule self.e3 }
        ensures of_e0 { F.post rule self.e0 result.e0 }
        ensures of_e1 { F.post rule self.e1 result.e1 }
        ensures of_e2 { F.post rule self.e2 result.e2 }
        ensures of_e3 { F.post rule self.e3 result.e3 }
    {
        Ends {
            e0: rule(self.e0),
            e1: rule(self.e1),
            e2: rule(self.e2),
            e3: rule(self.e3),
        }
    }

    // What a rule makes of each and of the end's number.
    pub fn map_at<U, F: Fn(usize, T) -> U>(self, rule: F) -> Ends<U>
        requires e0 { F.pre rule 0 self.e0 }
        requires e1 { F.pre rule 1 self.e1 }
        requires e2 { F.pre rule 2 self.e2 }
        requires e3 { F.pre rule 3 self.e3 }
        ensures of_e0 { F.post rule 0 self.e0 result.e0 }
        ensures of_e1 { F.post rule 1 self.e1 result.e1 }
        ensures of_e2 { F.post rule 2 self.e2 result.e2 }
        ensures of_e3 { F.post rule 3 self.e3 result.e3 }
    {
        Ends {
            e0: rule(0, self.e0),
            e1: rule(1, self.e1),
            e2: rule(2, self.e2),
            e3: rule(3, self.e3),
        }
    }
}

impl Ends<bool> {
    // Whether it is so of each.
    pub fn all(self) -> bool
        ensures { result ≡ (self.e0 && (self.e1 && (self.e2 && self.e3))) }
    {
        self.e0 & (self.e1 & (self.e2 & self.e3))
    }
}
