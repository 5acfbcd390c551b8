// Amplitudes of one cycle: the root of c² + s², from the parts of their sums.

#![tactic(auto)]

ghost use Rattle.std.specs.Prelude.{◌≡◌};
ghost use Rattle.amplitude.specs.Parts.{joined as joined_of, PairInput, SumInput, PartsInput, JoinOf, SquareOf, OfParts};
ghost use Rattle.amplitude.specs.Peak.{PeakBound};

// A sum with the constants, from its parts in 780 and in 1351.
fn joined(a: i32, b: i32) -> i64
    requires { PairInput a b }
    ensures { JoinOf a b result }
{
    780 * i64::from(a) + 1351 * i64::from(b)
}

// c² or s²: the sum divided by 9,360, to the nearest, a half away from zero, and squared.
fn squared(sum: i64) -> u64
    requires { SumInput sum }
    ensures { SquareOf sum result }
{
    let x = integer::nearest_away(sum, 9360);
    (x * x) as u64
}

// The amplitude, from the parts of c in 780 and in 1351, and those of s: the root of c² + s².
pub fn amplitude(c: i32, c3: i32, s: i32, s3: i32) -> u32
    requires { PartsInput c c3 s s3 }
    ensures { OfParts c c3 s s3 result }
{
    integer::root(squared(joined(c, c3)) + squared(joined(s, s3))).root as u32
}

// The limits 45, 69 and 91: no code, the statement and its proof.
pub fn peak_bound()
    ensures { PeakBound }
{}
