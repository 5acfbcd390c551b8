// The rules of the fields: the lowest offset of a field outside its rule.

ghost use Rattle.std.specs.Prelude.{◌≡◌, ◌<◌};
ghost use Rattle.setting.specs.Values.{end_of, right as right_of, fields as fields_of, lower, lowest};
ghost use Rattle.setting.specs.Lowest.{LowestGiven};

use crate::{End, Field, Setting};

// The lower of two offsets, of those that there are.
pub fn sooner(a: Option<u16>, b: Option<u16>) -> Option<u16>
    ensures { result ≡ lower a b }
{
    let (Some(x), Some(y)) = (a, b) else {
        return a.or(b);
    };
    Some(x.min(y))
}

// The end z.
pub fn end_of(v: Setting, z: u8) -> End
    requires { z < 4 }
    ensures { result ≡ end_of v z }
{
    match z {
        0 => v.e0,
        1 => v.e1,
        2 => v.e2,
        _ => v.e3,
    }
}

// The fields of setting values in block order.
fn fields(v: Setting) -> [Field; 28]
    ensures { result ≡ fields_of v }
{
    let o = v.overcurrent;
    [
        Field(5, true, 0, 7, u32::from(v.flags)),
        Field(6, true, 1, 24, u32::from(v.confirm)),
        Field(8, true, 1, 50000, v.power),
        Field(12, 0 < v.ends, 1, 15000, v.e0.voltage),
        Field(16, 0 < v.ends, 1, 50000, v.e0.current),
        Field(20, 0 < v.ends, 0, 0, u32::from(v.e0.group)),
        Field(21, 0 < v.ends, 0, 1, u32::from(v.e0.filter)),
        Field(24, 1 < v.ends, 1, 15000, v.e1.voltage),
        Field(28, 1 < v.ends, 1, 50000, v.e1.current),
        Field(32, 1 < v.ends, 0, 11, u32::from(v.e1.group)),
        Field(33, 1 < v.ends, 0, 1, u32::from(v.e1.filter)),
        Field(36, 2 < v.ends, 1, 15000, v.e2.voltage),
        Field(40, 2 < v.ends, 1, 50000, v.e2.current),
        Field(44, 2 < v.ends, 0, 11, u32::from(v.e2.group)),
        Field(45, 2 < v.ends, 0, 1, u32::from(v.e2.filter)),
        Field(48, 3 < v.ends, 1, 15000, v.e3.voltage),
        Field(52, 3 < v.ends, 1, 50000, v.e3.current),
        Field(56, 3 < v.ends, 0, 11, u32::from(v.e3.group)),
        Field(57, 3 < v.ends, 0, 1, u32::from(v.e3.filter)),
        Field(60, true, 100, 2500, u32::from(v.thresholds.basic)),
        Field(62, true, 2500, 30000, u32::from(v.thresholds.high)),
        Field(64, true, 10, 150, u32::from(v.thresholds.slope1)),
        Field(66, true, 10, 150, u32::from(v.thresholds.slope2)),
        Field(68, true, 1500, 10000, u32::from(v.thresholds.knee)),
        Field(70, true, 10, 50, u32::from(v.thresholds.second)),
        Field(72, true, 10, 80, u32::from(v.thresholds.fifth)),
        Field(74, o.curve != 0, 200, 4000, u32::from(o.pickup)),
        Field(76, true, 0, 2, u32::from(o.curve)),
    ]
}

// Whether a field is within its rule.
fn right(f: Field) -> bool
    ensures { result ≡ right_of f }
{
    let Field(_, used, least, most, value) = f;
    if used {
        least <= value && value <= most
    } else {
        value == 0
    }
}

// The lowest offset of a field outside its rule: the first that is met in block order.
pub fn fault(v: Setting) -> Option<u16>
    ensures { result ≡ lowest (fields_of v) }
{
    let fields = fields(v);
    let wrong = fields.iter().find(|f| !right(**f))?;
    Some(wrong.0)
}

// What is lowest does not depend on the order of the fields: no code, the statement and its proof.
pub fn lowest_given()
    ensures { LowestGiven }
{}
