// The theorems over lists of calls, mostly from a fresh relay: no code, the statements and their proofs.

#![tactic(auto)]

ghost use Rattle.stability.specs.Lists.{SettingKept, WindowFiled, Answered, ResetAccepted, ReadAnswered, WriteAnswered};
ghost use Rattle.stability.specs.Trips.{Latched, Counted};
ghost use Rattle.stability.specs.Timers.{Summed, TimerTripped, NoneTrips};
ghost use Rattle.stability.specs.Flags.{Noted};
ghost use Rattle.stability.specs.Apart.{PageApart};
ghost use Rattle.stability.specs.Slopes.{FallingDeclined};
ghost use Rattle.stability.specs.Stability.{Stability};
ghost use Rattle.stability.specs.Example.{FaultUnhealthy};
ghost use Rattle.stability.specs.ThroughFault.{ThroughFault, EarthFaults};
ghost use Rattle.stability.specs.Turning.{Turning};

// Demand 2 over the list: the setting is kept, the window is that of the last twelve accepted sets, a set is answered as the definitions give for it,
// a reset is accepted, and the register page shows that window.
pub fn filed()
    ensures { SettingKept × WindowFiled × Answered × ResetAccepted × ReadAnswered × WriteAnswered }
{}

// Latches and counters over the list: they are those of the sets in a row that counted since the last reset.
pub fn trips()
    ensures { Latched × Counted }
{}

// The overcurrent elements over the list: sums and trips are those of the measured sets in a row since the last reset; and none trips while every A is
// below 1.1·X.
pub fn backup()
    ensures { Summed × TimerTripped × NoneTrips }
{}

// Flags and interrupt mask over the list: they are those of the starts, trips, refused sets and writes in it.
pub fn noted()
    ensures { Noted }
{}

// The register page stands apart: struck of its reads, and of its writes that do not reset, a list has the same answers.
pub fn apart()
    ensures { PageApart }
{}

// A record whose slopes fall: each call of any list is declined, and the record stays.
pub fn slopes()
    ensures { FallingDeclined }
{}

// Demand 3: no start, no trip, and D within its limit, over every list of calls whose accepted sets are those of a healthy bank.
pub fn stability()
    ensures { Stability }
{}

// Demand 3 is not empty: sets of healthy banks at heavy through-faults, without and with neutral current, which it speaks of; and a list of sets that
// trips a relay, which are then not those of a healthy bank.
pub fn examples()
    ensures { ThroughFault × EarthFaults × FaultUnhealthy }
{}

// Turned current transformers, over the list: negating every sample negates matched numbers, c and s, and leaves answers, counters and latches.
pub fn turning()
    ensures { Turning }
{}
