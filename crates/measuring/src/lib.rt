// Measuring a full window: differential, twice the restraint, harmonics, start and blocking of the three systems.

#![tactic(auto)]

ghost use Rattle.std.specs.Prelude.{◌≡◌, ◌&&◌, ◌||◌, ◌*◌, ◌≤◌, ◌<◌, ◌-ℤ◌};
ghost use Rattle.matching.specs.Sets.{system};
ghost use Rattle.characteristic.specs.Characteristic.{starts as starts_of, common_on};
ghost use Rattle.measuring.specs.Folded.{combined as combined_of, CombinedInput, PartsLike, Folds, part_at, over_ends, FirstOf, twice_restraint_by};
ghost use Rattle.measuring.specs.Folded.{currents_with, currents_by};
ghost use Rattle.measuring.specs.Measuring.{start, readings_of, ReadingsBy};
ghost use Rattle.measuring.specs.Ends.{part_of, AmplitudesFrom, StepsInput, taken as taken_of, MadeOf, MeasuresEnds};
ghost use Rattle.measuring.specs.Holding.{CommonBlocking};
ghost use Rattle.measuring.specs.OneEnd.{OneEndAmplitude};
ghost use Rattle.measuring.specs.WindowInput.{WindowInput, Ends, Measurable, SystemInput};

use characteristic::{Currents, Held};
use setting::Setting;
use systems::Systems;

// What is measured of a system: its currents, in thousandths of reference current, with r twice the restraint; start, blocked.
#[derive(Clone, Copy)]
pub struct Reading {
    pub d: u32,
    pub r: u32,
    pub h2: u32,
    pub h5: u32,
    pub start: bool,
    pub blocked: bool,
}

// Those of systems 1, 2 and 3.
pub type Readings = Systems<Reading>;

// What is measured of the three systems, and the h = 1 amplitudes of the ends where they are asked for: number 3 z + y is of end z and system y.
#[derive(Clone, Copy)]
pub struct WithEnds {
    pub readings: Readings,
    pub amplitudes: [u32; 12],
}

// The sum of number i of each set, each times its share w.
fn combined(win: &[i32], w: [i32; 12], i: usize) -> i32
    requires { CombinedInput win.now w i }
    ensures { result ≡ combined_of win.now w i }
{
    let mut sum = 0;
    for k in 0..12 {
        sum += w[k] * win[12 * k + i];
    }
    sum
}

// A window in parts, and the number of ends in use: number 12 p + 3 z + y is part p of end z and system y.
#[derive(Drop)]
struct Folded {
    parts: [i32; 72],
    ends: usize,
    ghost like: { PartsLike parts },
    ghost used: { Ends ends },
}

impl Folded {
    // The six parts of c and s, each for the twelve numbers of a set. Those stand side by side, so that the compiler takes several at a time; shares from
    // −2 to 2 leave it nothing to multiply.
    fn new(win: &[i32], ends: u8) -> Folded
        requires window { WindowInput win.now }
        requires ends { Ends ends }
        ensures parts { Folds win.now result.parts }
        ensures ends { result.ends ≡ ends }
    {
        let mut parts = [0; 72];
        for i in 0..12 {
            let c = combined(win, [2, 0, 1, 0, -1, 0, -2, 0, -1, 0, 1, 0], i);
            let c3 = combined(win, [0, 1, 0, 0, 0, -1, 0, -1, 0, 0, 0, 1], i);
            let s = combined(win, [0, 1, 0, 2, 0, 1, 0, -1, 0, -2, 0, -1], i);
            let s3 = combined(win, [0, 0, 1, 0, 1, 0, 0, 0, -1, 0, -1, 0], i);
            let c2 = combined(win, [2, 1, -1, -2, -1, 1, 2, 1, -1, -2, -1, 1], i);
            let s2 = combined(win, [0, 1, 1, 0, -1, -1, 0, 1, 1, 0, -1, -1], i);
            parts[i] = c;
            parts[12 + i] = c3;
            parts[24 + i] = s;
            parts[36 + i] = s3;
            parts[48 + i] = c2;
            parts[60 + i] = s2;
        }
        Folded {
            parts,
            ends: usize::from(ends),
        }
    }

    // Part p of number i of the sets.
    fn part(&self, p: usize, i: usize) -> i32
        requires part { p < 6 }
        requires number { i < 12 }
        ensures { result ≡ part_of self.now.parts p i }
    {
        self.parts[12 * p + i]
    }

    // Part p of end z and system y.
    fn at(&self, p: usize, z: usize, y: usize) -> i32
        requires part { p < 6 }
        requires end { z < 4 }
        requires system { y < 3 }
        ensures { result ≡ part_at self.now.parts p z y }
    {
        self.part(p, 3 * z + y)
    }

    // Part p of the sum over the ends in use.
    fn over_ends(&self, p: usize, y: usize) -> i32
        requires part { p < 6 }
        requires system { y < 3 }
        ensures { result ≡ over_ends self.now.ends self.now.parts p y }
    {
        let two = self.at(p, 0, y) + self.at(p, 1, y);
        if self.ends == 2 {
            return two;
        }
        let three = two + self.at(p, 2, y);
        if self.ends == 3 {
            return three;
        }
        three + self.at(p, 3, y)
    }

    // Part p of end 0 minus end 1.
    fn between(&self, p: usize, y: usize) -> i32
        requires part { p < 6 }
        requires system { y < 3 }
        ensures { result ≡ part_at self.now.parts p 0 y -ℤ part_at self.now.parts p 1 y }
    {
        self.at(p, 0, y) - self.at(p, 1, y)
    }

    // The h = 1 amplitude of number i of the sets.
    fn amplitude(&self, i: usize) -> u32
        requires { i < 12 }
        ensures { FirstOf (λ p. part_of self.now.parts p i) result }
    {
        amplitude::amplitude(
            self.part(0, i),
            self.part(1, i),
            self.part(2, i),
            self.part(3, i),
        )
    }

    // How many numbers of a set have their amplitudes taken: those of the ends in use; with two ends R is not made of them, so none unless they are asked for.
    fn taken(&self, asked: bool) -> usize
        ensures { result ≡ taken_of self.now.ends asked }
    {
        if self.ends == 2 && !asked {
            0
        } else {
            3 * self.ends
        }
    }

    // The h = 1 amplitudes of the numbers from first on in steps of step, below n, each in its place; the others are 0.
    fn amplitudes(&self, first: usize, step: usize, n: usize) -> [u32; 12]
        requires { StepsInput first step n }
        ensures { AmplitudesFrom self.now.parts first step n n result }
    {
        let mut a = [0; 12];
        for i in (first..n).step_by(step) {
            a[i] = self.amplitude(i);
        }
        a
    }

    // R, twice the restraint, where a has the amplitudes that it is made of.
    fn twice_restraint(&self, y: usize, a: &[u32; 12]) -> u32
        requires system { y < 3 }
        requires made { MadeOf self.now.ends self.now.parts y a.now }
        ensures { result ≡ twice_restraint_by self.now.ends self.now.parts y }
    {
        if self.ends == 2 {
            return amplitude::amplitude(
                self.between(0, y),
                self.between(1, y),
                self.between(2, y),
                self.between(3, y),
            );
        }
        a[y] + a[3 + y] + a[6 + y] + a[9 + y]
    }

    // D, H2 and H5 of system y, and the given R.
    fn currents_with(&self, y: usize, r: u32) -> Currents
        requires { y < 3 }
        ensures { result ≡ currents_with self.now.ends self.now.parts y r }
    {
        let c = self.over_ends(0, y);
        let c3 = self.over_ends(1, y);
        let s = self.over_ends(2, y);
        let s3 = self.over_ends(3, y);
        let c2 = self.over_ends(4, y);
        let s2 = self.over_ends(5, y);
        Currents {
            d: amplitude::amplitude(c, c3, s, s3),
            r,
            h2: amplitude::amplitude(c2, 0, 0, s2),
            h5: amplitude::amplitude(c, -c3, s, -s3),
        }
    }

    // D, R, H2 and H5 of system y, where a has the amplitudes that R is made of.
    fn currents(&self, y: usize, a: &[u32; 12]) -> Currents
        requires system { y < 3 }
        requires made { MadeOf self.now.ends self.now.parts y a.now }
        ensures { result ≡ currents_by self.now.ends self.now.parts y }
    {
        self.currents_with(y, self.twice_restraint(y, a))
    }
}

// Whether system y starts.
pub fn started(v: Setting, win: &[i32], y: usize) -> bool
    requires { SystemInput v win.now y }
    ensures { result ≡ start v win.now (system y) }
{
    let f = Folded::new(win, v.ends);
    let a = f.amplitudes(y, 3, f.taken(false));
    characteristic::starts(v, f.currents(y, &a))
}

// Whether all systems are blocked: with common blocking on, when any holds back others.
fn common(v: Setting, h: Systems<Held>) -> bool
    ensures { result ≡ (common_on v && (h.a.others || (h.b.others || h.c.others))) }
{
    v.flags / 4 % 2 == 1 && (h.a.others || h.b.others || h.c.others)
}

// What is measured of a system, from its currents, whether it has harmonics, and whether all are blocked.
fn system_reading(v: Setting, c: Currents, own: bool, any: bool) -> Reading
    requires { v.thresholds.basic ≤ 2 * v.thresholds.knee }
    ensures { result ≡ record { d = c.d; r = c.r; h2 = c.h2; h5 = c.h5; start = starts_of v c.d c.r; blocked = own || any } }
{
    Reading {
        d: c.d,
        r: c.r,
        h2: c.h2,
        h5: c.h5,
        start: characteristic::starts(v, c),
        blocked: own || any,
    }
}

// What is measured of the three systems, from their currents.
fn readings_by(v: Setting, c: Systems<Currents>) -> Readings
    requires { v.thresholds.basic ≤ 2 * v.thresholds.knee }
    ensures { ReadingsBy v c.a c.b c.c result }
{
    let held = c.map(|c| characteristic::blocking(v, c));
    let any = common(v, held);
    c.map_with(held, |c, h| system_reading(v, c, h.own, any))
}

// What is measured of the three systems over a full window, and the ends' amplitudes where they are asked for. Those that R is made of are taken once.
pub fn measure_ends(v: Setting, win: &[i32], asked: bool) -> WithEnds
    requires { Measurable v win.now }
    ensures { MeasuresEnds v win.now asked result }
{
    let f = Folded::new(win, v.ends);
    let amplitudes = f.amplitudes(0, 1, f.taken(asked));
    let c = Systems {
        a: f.currents(0, &amplitudes),
        b: f.currents(1, &amplitudes),
        c: f.currents(2, &amplitudes),
    };
    WithEnds {
        readings: readings_by(v, c),
        amplitudes,
    }
}

// What is measured of the three systems.
pub fn measure(v: Setting, win: &[i32]) -> Readings
    requires { Measurable v win.now }
    ensures { result ≡ readings_of v win.now }
{
    measure_ends(v, win, false).readings
}

// Which systems hold back others (§ Characteristic and trip 3): no code, the statement and its proof.
pub fn common_blocking()
    ensures { CommonBlocking }
{}

// At a fault fed from one end D and R are that end's amplitude: no code, the statement and its proof.
pub fn one_end()
    ensures { OneEndAmplitude }
{}
