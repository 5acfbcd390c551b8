// A part of the record put to another value.

ghost use Rattle.std.specs.Prelude.{◌≡◌};
ghost use Rattle.record_parts.specs.Changes.{byte, set, half, word, signed, change_of};

use setting::{End, Setting, Thresholds};

// A part of the record, and which one of several.
#[derive(Clone, Copy)]
pub enum Part {
    // The setting value at an offset of the setting block.
    Setting(u8),
    // The fill of the window.
    Fill,
    // A matched number.
    Number(u8),
    // The counter of a system.
    Counter(u8),
    // The flags (0) or the interrupt mask.
    Events(u8),
    // The sum of an end.
    Sum(u8),
    // The trip of an end.
    Trip(u8),
}

// The new value of a part, in four bytes: each part reads as many as it has.
#[derive(Clone, Copy)]
pub struct Value([u8; 4]);

impl From<Value> for bool {
    ghost from_gives = { λ x r. r ≡ set x };

    fn from(x: Value) -> bool {
        x.0[0] != 0
    }
}

impl From<Value> for u8 {
    ghost from_gives = { λ x r. r ≡ byte x };

    fn from(x: Value) -> u8 {
        x.0[0]
    }
}

impl From<Value> for u16 {
    ghost from_gives = { λ x r. r ≡ half x };

    fn from(x: Value) -> u16 {
        u16::from_le_bytes([x.0[0], x.0[1]])
    }
}

impl From<Value> for u32 {
    ghost from_gives = { λ x r. r ≡ word x };

    fn from(x: Value) -> u32 {
        u32::from_le_bytes(x.0)
    }
}

impl From<Value> for i32 {
    ghost from_gives = { λ x r. r ≡ signed x };

    fn from(x: Value) -> i32 {
        i32::from_le_bytes(x.0)
    }
}

// What a change block holds.
#[derive(Clone, Copy)]
pub struct Change {
    pub part: Part,
    pub value: Value,
}

impl From<&[u8; 512]> for Change {
    ghost from_gives = { λ block r. r ≡ change_of block.now };

    fn from(block: &[u8; 512]) -> Change {
        let which = block[2];
        let part = match block[1] {
            0 => Part::Setting(which),
            1 => Part::Fill,
            2 => Part::Number(which),
            3 => Part::Counter(which),
            4 => Part::Events(which),
            5 => Part::Sum(which),
            _ => Part::Trip(which),
        };
        Change {
            part,
            value: Value([block[4], block[5], block[6], block[7]]),
        }
    }
}

// The field at one of an end's twelve offsets.
fn change_end(e: &mut End, at: u8, x: Value) {
    match at {
        0 => e.voltage = x.into(),
        4 => e.current = x.into(),
        8 => e.group = x.into(),
        9 => e.filter = x.into(),
        _ => {}
    }
}

// The threshold at an offset of the setting block.
fn change_threshold(t: &mut Thresholds, at: u8, x: Value) {
    match at {
        60 => t.basic = x.into(),
        62 => t.high = x.into(),
        64 => t.slope1 = x.into(),
        66 => t.slope2 = x.into(),
        68 => t.knee = x.into(),
        70 => t.second = x.into(),
        _ => t.fifth = x.into(),
    }
}

// The setting value at an offset of the setting block.
pub fn change_setting(v: &mut Setting, at: u8, x: Value) {
    match at {
        4 => v.ends = x.into(),
        5 => v.flags = x.into(),
        6 => v.confirm = x.into(),
        ..12 => v.power = x.into(),
        ..24 => change_end(&mut v.e0, at - 12, x),
        ..36 => change_end(&mut v.e1, at - 24, x),
        ..48 => change_end(&mut v.e2, at - 36, x),
        ..60 => change_end(&mut v.e3, at - 48, x),
        ..74 => change_threshold(&mut v.thresholds, at, x),
        74 => v.overcurrent.pickup = x.into(),
        _ => v.overcurrent.curve = x.into(),
    }
}
