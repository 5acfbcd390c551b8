// The parts of the relay record: the window of matched numbers, and the counter and the latch of each system.

#![tactic(auto)]

ghost use Rattle.std.specs.Prelude.{◌≡◌, ◌++◌, ◌+◌, ◌≤◌, length, take, drop};
ghost use Rattle.lists.specs.Tests.{each, hold};
ghost use Rattle.state.specs.State.{number_within, counters_within, Files, element_after, latches_of, latch_sum};
ghost use Rattle.state.specs.Rows.{LatchedInARow, CountedInARow};

use bits::Bits;
use systems::Systems;

// Twelve places of matched numbers: number 12k + 3z + y is that of set k (oldest 0), end z and system y. `fill` places are held.
#[derive(Clone, Copy)]
pub struct Window {
    pub values: [i32; 144],
    pub fill: u8,
}

// The counter and the latch of a system, and those of the three.
#[derive(Clone, Copy)]
pub struct Element {
    pub count: u8,
    pub latch: bool,
}

pub type Trip = Systems<Element>;

// No matched number beyond 800,000.
pub fn numbers_within(values: &[i32]) -> bool
    ensures { result ≡ each number_within values.now }
{
    integer::all_within(values, 800000)
}

// No counter above the confirm count.
pub fn counters_within(confirm: u8, t: Trip) -> bool
    ensures { result ≡ hold (counters_within confirm t) }
{
    t.map(|e| e.count <= confirm).all()
}

// Twelve numbers put at a place.
pub fn put(values: &mut [i32], at: usize, ns: [i32; 12])
    requires { at + 12 ≤ length values.old }
    ensures { values.new ≡ take at values.old ++ (ns ++ drop (at + 12) values.old) }
{
    values[at..at + 12].copy_from_slice(&ns);
}

// The window with a set's numbers filed: after those held, or at the end once the oldest has gone.
pub fn place(w: Window, ns: [i32; 12]) -> Window
    requires { w.fill ≤ 12 }
    ensures { Files w ns result }
{
    let mut values = w.values;
    if w.fill < 12 {
        put(&mut values, 12 * usize::from(w.fill), ns);
        return Window {
            values,
            fill: w.fill + 1,
        };
    }
    values.copy_within(12.., 0);
    put(&mut values, 132, ns);
    Window { values, fill: 12 }
}

// The counter and the latch of a system after a set.
#[tactic(auto, unfolding(crate::specs::State::element_after))]
pub fn element_after(confirm: u8, counts: bool, e: Element) -> Element
    ensures { result ≡ element_after confirm counts e }
{
    let count = if counts {
        e.count.saturating_add(1).min(confirm)
    } else {
        0
    };
    Element {
        count,
        latch: e.latch || (counts && count == confirm),
    }
}

// The latch and the counter over any number of sets, by rows of sets that count: no code, the statements and their proofs.
pub fn in_a_row()
    ensures { LatchedInARow × CountedInARow }
{}

// The latches of systems 1, 2 and 3.
pub fn latches(t: Trip) -> Bits
    ensures { result ≡ latches_of t }
{
    Bits::from(t.map(|e| e.latch))
}

// The sum of 1, 2, 4 for the systems latched.
pub fn latched(t: Trip) -> u8
    ensures { result ≡ latch_sum t }
{
    u8::from(latches(t))
}
