// Whole numbers: division to the nearest, the whole square root, and bounds on the size. The laws of integers that the
// other crates' proofs cite stand in proofs/.

#![tactic(auto)]

ghost use Rattle.std.specs.Prelude.{◌≡◌, ◌+◌, ◌/◌, ◌^◌, ◌<◌, leb, nat_abs};
ghost use Rattle.lists.specs.Tests.{each};
ghost use Rattle.integer.specs.Nearest.{Divides, nearest as nearest_of, nearest_away};
ghost use Rattle.integer.specs.Root.{step as step_of, start as start_of, FindsRoot, FewTurns};

// a / b to the nearest whole number; a half goes up.
pub fn nearest(a: i64, b: u64) -> i64
    requires { Divides a b }
    ensures { result ≡ nearest_of a b }
{
    let d = b as i64;
    (2 * a + d).div_euclid(2 * d)
}

// a / b to the nearest whole number; a half goes away from zero. The machine rounds a quotient
// toward zero: half a divisor more, on the side of a, makes that the nearest.
pub fn nearest_away(a: i64, b: u64) -> i64
    requires { Divides a b }
    ensures { result ≡ nearest_away a b }
{
    let d = b as i64;
    let half = if a < 0 { 0 - d } else { d };
    (2 * a + half) / (2 * d)
}

// The largest number whose square is at most another, and the turns of the loop that found it.
#[derive(Clone, Copy)]
pub struct Found {
    pub root: u64,
    pub turns: u8,
}

// Newton's step from r: half of r + x / r. From any r above 0 it is not below the root.
fn step(x: u64, r: u64) -> u64
    requires { (0 < r) × (r + x / r < 2 ^ 64) }
    ensures { result ≡ step_of x r }
{
    (r + x / r) / 2
}

// Where the loop starts: one more than two steps from 2 to the power of half of x's digits, the first of which is a shift. That is above the root by
// so little that one turn is left nearly always, which the processor foresees.
fn start(x: u64) -> u64
    requires { 0 < x }
    ensures { result ≡ start_of x }
{
    let half = (64 - x.leading_zeros()) / 2;
    let r = step(x, step(x, 1 << half)) + 1;
    r.min(4294967295)
}

// The root of x: a step a turn for as long as r is above it, and no turn at 0.
pub fn root(x: u64) -> Found
    ensures { FindsRoot x result }
{
    if x == 0 {
        return Found { root: 0, turns: 0 };
    }
    let mut r = start(x);
    let mut turns = 0;
    while x < r * r {
        r = step(x, r);
        turns += 1;
    }
    Found { root: r, turns }
}

// No more turns than binary digits (§ Amplitudes 5): no code, the statement and its proof.
pub fn few_turns()
    ensures { FewTurns }
{}

// Whether |x| is at most a bound.
fn within(x: i32, most: u32) -> bool
    ensures { result ≡ leb (nat_abs x) most }
{
    x.unsigned_abs() <= most
}

// Whether that holds of each number. All are looked at, so that the machine can take several side by side.
pub fn all_within(numbers: &[i32], most: u32) -> bool
    requires { most < 2 ^ 31 }
    ensures { result ≡ each (λ x. leb (nat_abs x) most) numbers.now }
{
    let mut all = true;
    for x in numbers {
        all &= within(*x, most);
    }
    all
}
