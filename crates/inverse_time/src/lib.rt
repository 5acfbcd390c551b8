// The inverse-time element of an end: its curves, its sum and its trip.

#![tactic(auto)]

pub mod curves;

ghost use Rattle.std.specs.Prelude.{◌≡◌, ◌≤◌};
ghost use Rattle.inverse_time.specs.Curves.{curve_of};
ghost use Rattle.inverse_time.specs.Timers.{multiple as multiple_of, most_sum, sum_after, timer_after, TimerInput};
ghost use Rattle.inverse_time.specs.Rows.{SummedInARow, TrippedInARow};
ghost use Rattle.inverse_time.specs.Planning.{PickUp, Unmoved, HeldTrips};

// The sum and the trip of an end.
#[derive(Clone, Copy)]
pub struct Timer {
    pub sum: u32,
    pub trip: bool,
}

// j, the multiple of the pick-up in tenths: at most 200.
fn multiple(pickup: u16, a: u32) -> u32
    requires { (1 ≤ pickup) × (a ≤ 32000000) }
    ensures { result ≡ multiple_of pickup a }
{
    (10 * a / u32::from(pickup)).min(200)
}

// The sum of an end in use after a measured set.
fn sum_after(curve: u8, j: u32, sum: u32) -> u32
    requires { (j ≤ 200) × (sum ≤ most_sum) }
    ensures { result ≡ sum_after (curve_of curve) j sum }
{
    if j < 11 {
        return 0;
    }
    (sum + 1000000000 / curves::entry(curve, j)).min(1000000000)
}

// Its sum and its trip after a measured set.
pub fn timer_after(curve: u8, pickup: u16, a: u32, t: Timer) -> Timer
    requires { TimerInput pickup a t }
    ensures { result ≡ timer_after (curve_of curve) (multiple_of pickup a) t }
{
    let sum = sum_after(curve, multiple(pickup, a), t.sum);
    Timer {
        sum,
        trip: t.trip || sum == 1000000000,
    }
}

// The sum and the trip over any number of measured sets, by those in a row: no code, the statements and their proofs.
pub fn in_a_row()
    ensures { SummedInARow × TrippedInARow }
{}

// What a planner asks of a pick-up and a curve: no code, the statements and their proofs.
pub fn planning()
    ensures { PickUp × (Unmoved × HeldTrips) }
{}
