// Setting values, their rules and factors, and the verdict on them.

#![tactic(auto)]

pub mod factors;
pub mod judging;
pub mod rules;

// An end: nominal voltage V in 0.1 kV, primary rated current I in A, vector group, zero-sequence filter.
#[derive(Clone, Copy)]
pub struct End {
    pub voltage: u32,
    pub current: u32,
    pub group: u8,
    pub filter: u8,
}

// Setting values. A value of this type may break the rules: `verdict` says whether it does.
#[derive(Clone, Copy)]
pub struct Setting {
    // The number of ends E.
    pub ends: u8,
    // Bit 0 second-harmonic blocking, bit 1 fifth, bit 2 common blocking.
    pub flags: u8,
    // The confirm count M.
    pub confirm: u8,
    // The reference power S in 0.1 MVA.
    pub power: u32,
    pub e0: End,
    pub e1: End,
    pub e2: End,
    pub e3: End,
    pub thresholds: Thresholds,
    pub overcurrent: Overcurrent,
}

// The thresholds: P, H and Q in thousandths of reference current; m1 and m2 in percent; the percents of second and fifth harmonic that block.
#[derive(Clone, Copy)]
pub struct Thresholds {
    // P, H
    pub basic: u16,
    pub high: u16,
    // m1, m2
    pub slope1: u16,
    pub slope2: u16,
    // Q, a restraint: R, twice the restraint, is compared with 2Q
    pub knee: u16,
    pub second: u16,
    pub fifth: u16,
}

// The inverse-time elements: the pick-up X in thousandths of reference current; the curve, 0 off, 1 very inverse, 2 extremely inverse.
#[derive(Clone, Copy)]
pub struct Overcurrent {
    pub pickup: u16,
    pub curve: u8,
}

// A field of the block: the offset of its first byte, whether it is in use, the least and the most that it may then be, and its value. A field that is
// not in use is zero.
#[derive(Clone, Copy)]
pub struct Field(pub u16, pub bool, pub u32, pub u32, pub u32);
