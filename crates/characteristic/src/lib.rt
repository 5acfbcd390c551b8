// The characteristic of one system: the three sections, harmonics, and what counts toward a trip.

#![tactic(auto)]

ghost use Rattle.std.specs.Prelude.{◌≡◌, ◌&&◌, ◌||◌, ◌+◌, ◌*◌, ◌≤◌, ltb};
ghost use Rattle.characteristic.specs.Characteristic.{starts as starts_of, has_harmonics, held_by, counts as counts_of};
ghost use Rattle.characteristic.specs.Bound.{QuietBound};
ghost use Rattle.characteristic.specs.Slopes.{NotMoreEager, FallingEager, FallenEager};
ghost use Rattle.characteristic.specs.OneEnd.{StartsAboveP, BlindBySlope1, BlindBySlope2};

use setting::Setting;

// The currents of a system, in thousandths of reference current: D, R (twice the restraint), the second and the fifth harmonic.
#[derive(Clone, Copy)]
pub struct Currents {
    pub d: u32,
    pub r: u32,
    pub h2: u32,
    pub h5: u32,
}

// What the harmonics of a system hold back: the system itself; others, under common blocking.
#[derive(Clone, Copy)]
pub struct Held {
    pub own: bool,
    pub others: bool,
}

// Whether 200·D exceeds 200·P + m·x + n·y.
fn past(d: u32, p: u32, m: u16, x: u32, n: u16, y: u32) -> bool
    ensures { result ≡ ltb (200 * p + m * x + n * y) (200 * d) }
{
    200 * u64::from(p) + u64::from(m) * u64::from(x) + u64::from(n) * u64::from(y)
        < 200 * u64::from(d)
}

// The three sections of the characteristic.
pub fn starts(v: Setting, c: Currents) -> bool
    requires { v.thresholds.basic ≤ 2 * v.thresholds.knee }
    ensures { result ≡ starts_of v c.d c.r }
{
    let t = v.thresholds;
    let p = u32::from(t.basic);
    let q = 2 * u32::from(t.knee);
    let Currents { d, r, .. } = c;
    if r <= p {
        return p < d;
    }
    if r <= q {
        return past(d, p, t.slope1, r - p, 0, 0);
    }
    past(d, p, t.slope1, q - p, t.slope2, r - q)
}

// Whether a harmonic is looked at, and above its percent of D.
fn harmonic(on: bool, percent: u16, d: u32, h: u32) -> bool
    ensures { result ≡ (on && ltb (percent * d) (100 * h)) }
{
    on && u64::from(percent) * u64::from(d) < 100 * u64::from(h)
}

// Whether a system has harmonics.
fn harmonics(v: Setting, c: Currents) -> bool
    ensures { result ≡ has_harmonics v c.d c.h2 c.h5 }
{
    harmonic(v.flags % 2 == 1, v.thresholds.second, c.d, c.h2)
        || harmonic(v.flags / 2 % 2 == 1, v.thresholds.fifth, c.d, c.h5)
}

// What the harmonics of a system hold back. Others it holds back where D exceeds P.
pub fn blocking(v: Setting, c: Currents) -> Held
    ensures { result ≡ held_by v c.d c.h2 c.h5 }
{
    let own = harmonics(v, c);
    Held {
        own,
        others: own && u32::from(v.thresholds.basic) < c.d,
    }
}

// Whether a system counts: it starts and is not blocked, or D exceeds the high-set.
pub fn counts(v: Setting, d: u32, start: bool, blocked: bool) -> bool
    ensures { result ≡ counts_of v d start blocked }
{
    (start && !blocked) || u32::from(v.thresholds.high) < d
}

// A D as small as a healthy bank's starts nothing and counts nowhere: no code, the statement and its proof.
pub fn quiet_bound()
    ensures { QuietBound }
{}

// No setting that a relay can be started on makes it more eager past the second section, and each whose slopes fall would: no code, the statements and
// their proofs.
pub fn slopes()
    ensures { NotMoreEager × FallingEager × FallenEager }
{}

// With R at most D, as at a fault fed from one end, a system starts exactly when D > P; with slopes of 200 percent it would not: no code, the statements and
// their proofs.
pub fn one_end()
    ensures { StartsAboveP × BlindBySlope1 × BlindBySlope2 }
{}
