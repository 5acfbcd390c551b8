// The relay's calls: start, sample and reset. Sample and reset take the record by value and hand it back beside the answer.

ghost use Rattle.std.specs.Prelude.{◌≡◌, Err};
ghost use Rattle.refusal.specs.Refusals.{gives};
ghost use Rattle.relay.specs.Calls.{reply_now, relay_now, refused_relay, cleared as cleared_of, Gives, Samples, Resets, Starts};
ghost use Rattle.relay.specs.CallInput.{element_by, trip_after, measures_of, FillingNow, FullNow};

use crate::{Answer, Measure, Relay, Returned, accepting, starting};
use bits::Bits;
use measuring::{Reading, Readings};
use refusal::Refusal;
use setting::{Setting, factors};
use state::{Element, Trip, Window};
use systems::Systems;

// The counter and the latch of a system after it was measured.
fn element_now(v: Setting, m: Reading, e: Element) -> Element
    ensures { result ≡ element_by v m e }
{
    state::element_after(
        v.confirm,
        characteristic::counts(v, m.d, m.start, m.blocked),
        e,
    )
}

// Those of the three systems, after a full window was measured.
pub fn trip_after(v: Setting, m: Readings, t: Trip) -> Trip
    ensures { result ≡ trip_after v m t }
{
    m.map_with(t, |m, e| element_now(v, m, e))
}

// What an answer says of the three systems.
fn measures(m: Readings, t: Trip) -> Systems<Measure>
    ensures { result ≡ measures_of m t }
{
    m.map_with(
        t,
        |reading, e| Measure {
            reading,
            latched: e.latch,
        },
    )
}

// A set filed in a window that is not full yet: the number held, counters cleared; overcurrent sums stay.
fn filling(r: Relay, w: Window) -> Returned<Answer>
    requires { FillingNow r w }
    ensures { Gives (gives (reply_now r w)) (relay_now r w) result }
{
    let confirm = r.setting.confirm;
    let trip = r.trip.map(|e| state::element_after(confirm, false, e));
    Returned {
        answer: Ok(Answer::Filling(w.fill)),
        relay: Relay {
            window: w,
            trip,
            ..r
        },
    }
}

// A set filed in a window that is full: the three systems measured, counters and latches after it.
fn measured(r: Relay, w: Window) -> Returned<Answer>
    requires { FullNow r w }
    ensures { Gives (gives (reply_now r w)) (relay_now r w) result }
{
    let v = r.setting;
    let full = overcurrent::watching::measured(v, &w.values, r.backup);
    let m = full.readings;
    let backup = full.backup;
    let trip = trip_after(v, m, r.trip);
    let events = page::noting::events_after(v, r.window, r.trip, r.events, m, trip);
    Returned {
        answer: Ok(Answer::Measured(measures(m, trip), overcurrent::tripped(backup))),
        relay: Relay {
            window: w,
            trip,
            events,
            backup,
            ..r
        },
    }
}

// A refused set: the record as before but for its flag.
#[tactic(auto, unfolding(crate::specs::Calls::refused_relay))]
fn flagged(r: Relay) -> Relay
    ensures { result ≡ refused_relay r }
{
    let flag = Bits {
        b0: false,
        b1: false,
        b2: true,
    };
    Relay {
        events: page::raised(flag, r.events),
        ..r
    }
}

// A refusal of a call, with the record that it leaves.
pub fn declined<T>(r: Relay, why: Refusal) -> Returned<T>
    ensures { result ≡ record { answer = Err why; relay = r } }
{
    Returned {
        answer: Err(why),
        relay: r,
    }
}

// The record with counters, latches, overcurrent sums and their trips cleared.
#[tactic(auto, unfolding(crate::specs::Calls::cleared))]
pub fn cleared(r: Relay) -> Relay
    ensures { result ≡ cleared_of r }
{
    Relay {
        trip: starting::untripped(),
        backup: overcurrent::untripped(),
        ..r
    }
}

impl Relay {
    // A fresh relay on setting values, or the refusal, 4, 5, 17, 6, 7, beside a blank record.
    pub fn start(v: Setting) -> Returned<()>
        ensures { Starts v result }
    {
        let answer = setting::judging::start_verdict(v);
        Returned {
            answer,
            relay: starting::fresh(starting::started_on(v, answer)),
        }
    }

    // A sample set: 12, 14, 10, 11, in this order; an accepted set is filed and answered.
    pub fn sample(self, set: &[i16]) -> Returned<Answer>
        ensures { Samples self set.now result }
    {
        if !accepting::admissible(self) {
            return declined(self, Refusal::Record);
        }
        let v = self.setting;
        if let Err(why) = accepting::set_verdict(v, set) {
            return declined(flagged(self), why);
        }
        let weights = matching::weights(v, factors::factors(v));
        let w = state::place(self.window, matching::numbers(v, weights, set));
        if w.fill < 12 {
            filling(self, w)
        } else {
            measured(self, w)
        }
    }

    // Clears counters, latches, overcurrent sums and their trips, and not the window: 12.
    #[tactic(auto, unfolding(crate::specs::Calls::reset_rows))]
    pub fn reset(self) -> Returned<()>
        ensures { Resets self result }
    {
        if accepting::admissible(self) {
            Returned {
                answer: Ok(()),
                relay: cleared(self),
            }
        } else {
            declined(self, Refusal::Record)
        }
    }
}
