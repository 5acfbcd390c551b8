// The factors K that match an end's currents to the reference, and their limits.

ghost use Rattle.std.specs.Prelude.{◌≡◌, ◌*◌, ◌<◌, pos, count_by};
ghost use Rattle.std.specs.Int.Signed.{le_z};
ghost use Rattle.integer.specs.Nearest.{nearest as nearest_of};
ghost use Rattle.setting.specs.Values.{factor_top};
ghost use Rattle.setting.specs.Limits.{Rated, Limits, factor_or0, four_factors};

use crate::{End, Setting, rules};

// K of an end: 65,536 times 1351·V·I / (780·1000·S), to the nearest.
pub fn factor(e: End, power: u32) -> i64
    requires { Rated e power }
    ensures { result ≡ nearest_of (pos (65536 * factor_top e)) (780 * 1000 * power) }
{
    let n = 65536 * 1351 * i64::from(e.voltage) * i64::from(e.current);
    integer::nearest(n, 780000 * u64::from(power))
}

// K of the end z where it is in use, else 0.
fn factor_at(v: Setting, z: u8) -> i64
    requires { Limits v × (z < 4) }
    ensures { result ≡ factor_or0 v z }
{
    if z < v.ends {
        return factor(rules::end_of(v, z), v.power);
    }
    0
}

// K of each end in use, and 0 at the others.
pub fn factors(v: Setting) -> [i64; 4]
    requires { Limits v }
    ensures { result ≡ four_factors v }
{
    std::array::from_fn(|z| factor_at(v, z as u8))
}

// How many factors are at least so large.
pub fn how_many(k: [i64; 4], least: u32) -> u8
    ensures { result ≡ count_by (le_z (pos least)) k }
{
    k.iter().filter(|x| i64::from(least) <= **x).count() as u8
}
