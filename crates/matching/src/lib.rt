// Matching: a sample set to matched numbers, for ratio, vector group and zero sequence.

#![tactic(auto)]

ghost use Rattle.std.specs.Prelude.{◌≡◌, ◌<◌};
ghost use Rattle.matching.specs.Matching.{even, operation as operation_of, operated as operated_of};
ghost use Rattle.matching.specs.Sets.{from_next, numbers as numbers_of};
ghost use Rattle.matching.specs.Weights.{parts, weights_at, weights_of, weighed, weighed_trio};
ghost use Rattle.matching.specs.MatchingInput.{OperationInput, OperatedInput, FactorsInput, WeighedInput, EndInput, SetInput};
ghost use Rattle.matching.specs.Bank.{TotalBound, MatchedBound};
ghost use Rattle.matching.specs.Neutral.{Widened, NeutralBefore};

use setting::Setting;
use systems::Systems;

// The matched numbers of an end for systems 1, 2 and 3.
pub type Trio = Systems<i32>;

// Three numbers as a system sees them: p of its own phase, n of the next (A to B to C to A), q of the one before.
#[derive(Clone, Copy)]
pub struct Three {
    pub p: i64,
    pub n: i64,
    pub q: i64,
}

impl Three {
    // The three as the next phase sees them.
    fn from_next(self) -> Three
        ensures { result ≡ from_next self }
    {
        Three {
            p: self.n,
            n: self.q,
            q: self.p,
        }
    }
}

// The group operation T(g).
fn operation(g: u8, x: Three) -> i64
    requires { OperationInput x.p x.n x.q }
    ensures { result ≡ operation_of g x.p x.n x.q }
{
    let Three { p, n, q } = x;
    match g {
        0 => p,
        1 => p - n,
        2 => -n,
        3 => q - n,
        4 => q,
        5 => q - p,
        6 => -p,
        7 => n - p,
        8 => n,
        9 => n - q,
        10 => -q,
        11 => p - q,
        _ => 0,
    }
}

// What K/65,536 multiplies, in parts of 4053 = 3·1351, so that every case has the same divisor. s is
// 3·z0. T(g) of p − z0, n − z0, q − z0 is T(g) of p, n, q less T(g) of z0, z0, z0.
fn operated(g: u8, filter: bool, x: Three) -> i64
    requires { OperatedInput g x }
    ensures { result ≡ parts (operated_of (even g) filter g x) }
{
    let s = x.p + x.n + x.q;
    let t = operation(g, x);
    if g % 2 == 0 {
        let u = 4053 * t;
        if filter {
            return u - 1351 * operation(g, Three { p: s, n: s, q: s });
        }
        return u;
    }
    let u = 2340 * t;
    if filter {
        return u;
    }
    u + 1351 * s
}

// The three weights of end z: K times what the group operation makes of 1 on the own phase, the next
// and the one before.
fn weights_at(v: Setting, ks: [i64; 4], z: u8) -> Three
    requires { FactorsInput v ks × (z < 4) }
    ensures { result ≡ weights_at v z }
{
    let e = setting::rules::end_of(v, z);
    let g = e.group;
    let filter = e.filter == 1;
    let k = ks[usize::from(z)];
    Three {
        p: k * operated(g, filter, Three { p: 1, n: 0, q: 0 }),
        n: k * operated(g, filter, Three { p: 0, n: 1, q: 0 }),
        q: k * operated(g, filter, Three { p: 0, n: 0, q: 1 }),
    }
}

// The weights of the four ends, which depend on the setting alone: those of end z from 3z on.
pub fn weights(v: Setting, ks: [i64; 4]) -> [i64; 12]
    requires { FactorsInput v ks }
    ensures { result ≡ weights_of v }
{
    let mut ws = [0; 12];
    for z in 0..4 {
        let w = weights_at(v, ks, z as u8);
        ws[3 * z] = w.p;
        ws[3 * z + 1] = w.n;
        ws[3 * z + 2] = w.q;
    }
    ws
}

// The matched number of a system: its three samples by the weights, to the nearest, rounded once, a
// half away from zero.
fn matched(w: Three, x: Three) -> i32
    requires { WeighedInput w x }
    ensures { result ≡ weighed w x }
{
    integer::nearest_away(w.p * x.p + w.n * x.n + w.q * x.q, 65536 * 4053) as i32
}

// The three matched numbers of end z in a set, zero where the end is not in use.
fn matched_at(ends: u8, ws: [i64; 12], z: u8, set: &[i16]) -> Trio
    requires { EndInput ends ws z set.now }
    ensures { result ≡ weighed_trio ends ws set.now z }
{
    if ends <= z {
        return Trio { a: 0, b: 0, c: 0 };
    }
    let at = 3 * usize::from(z);
    let w = Three {
        p: ws[at],
        n: ws[at + 1],
        q: ws[at + 2],
    };
    let a = Three {
        p: i64::from(set[at]),
        n: i64::from(set[at + 1]),
        q: i64::from(set[at + 2]),
    };
    let b = a.from_next();
    let c = b.from_next();
    Trio {
        a: matched(w, a),
        b: matched(w, b),
        c: matched(w, c),
    }
}

// The twelve matched numbers of a set, by the weights of the setting.
pub fn numbers(v: Setting, ws: [i64; 12], set: &[i16]) -> [i32; 12]
    requires { SetInput v ws set.now }
    ensures { result ≡ numbers_of v set.now }
{
    let mut h = [0; 12];
    for z in 0..4 {
        let t = matched_at(v.ends, ws, z as u8, set);
        h[3 * z] = t.a;
        h[3 * z + 1] = t.b;
        h[3 * z + 2] = t.c;
    }
    h
}

// The bounds of a healthy set and of any accepted one: no code, the statements and their proofs.
pub fn bounds()
    ensures { TotalBound × MatchedBound }
{}

// Neutral current: the bank without it is the case of sums that are zero, and its unfiltered ends show none: no code, the statements and their proofs.
pub fn neutral()
    ensures { Widened × NeutralBefore }
{}
