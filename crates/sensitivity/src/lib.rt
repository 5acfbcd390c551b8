// What the relay sees, the other side of demand 3: no code, the statements and their proofs.

#![tactic(auto)]

ghost use Rattle.sensitivity.specs.OneEnd.{OneEndStarts, OneEndSamples};
ghost use Rattle.sensitivity.specs.Trips.{OneEndTrips, BlockingOffTrips, HighSetTrips, StaysLatched};
ghost use Rattle.sensitivity.specs.TwoSides.{TwoSides};
ghost use Rattle.sensitivity.specs.Example.{SteepestSeen};

// A system fed from one end has R, twice the restraint, equal to D, and starts exactly when D > P; and sets with current at one end alone feed it so.
pub fn one_end()
    ensures { OneEndStarts × OneEndSamples }
{}

// Over lists of calls: such a fault trips within M measured sets, and so does any with D above H; the latch stays until a reset.
pub fn trips()
    ensures { OneEndTrips × BlockingOffTrips × HighSetTrips × StaysLatched }
{}

// Both sides, and what lies between them.
pub fn two_sides()
    ensures { TwoSides }
{}

// They are not empty: a fault that they speak of, on the steepest slopes that there are.
pub fn examples()
    ensures { SteepestSeen }
{}
