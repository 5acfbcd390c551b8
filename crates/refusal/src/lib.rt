// The refusals and their numbers.

#![tactic(auto)]

ghost use Rattle.std.specs.Prelude.{◌≡◌};
ghost use Rattle.refusal.specs.Refusals.{number_of};

// The refusals, in the order of their numbers 1 to 17. A call that may be declined gives `Ok` of its values, or `Err` of its refusal.
#[derive(Clone, Copy)]
pub enum Refusal {
    // A block that is not 512 bytes.
    Length,
    // A wrong check.
    Check,
    // A wrong mark or first byte.
    Mark,
    // A number of ends that is not 2 to 4.
    Ends,
    // Setting fields or zero bytes outside their rule: the lowest offset of one.
    Field(u16),
    // A factor above 16.
    FactorHigh,
    // The second largest factor below 0.5.
    FactorsLow,
    // More than 21 sets.
    Sets,
    // A byte of a sample block that must be zero and is not.
    Spare,
    // A sample beyond 32,000.
    Reach,
    // A sample of an unused end that is not zero.
    Unused,
    // A relay record that is not admissible.
    Record,
    // A buffer that ends before the block does.
    Room,
    // A set that is not 12 numbers, or a list that is not 0 to 21 whole sets.
    Count,
    // A read or write of the register page at 64 or beyond.
    Offset,
    // A write to a byte of the register page that is not written.
    Fixed,
    // A second slope below the first, m2 less than m1.
    SlopesFall,
}

// The number of a refusal in the table.
impl From<Refusal> for u8 {
    ghost from_gives = { λ r n. n ≡ number_of r };

    fn from(r: Refusal) -> u8 {
        match r {
            Refusal::Length => 1,
            Refusal::Check => 2,
            Refusal::Mark => 3,
            Refusal::Ends => 4,
            Refusal::Field(_) => 5,
            Refusal::FactorHigh => 6,
            Refusal::FactorsLow => 7,
            Refusal::Sets => 8,
            Refusal::Spare => 9,
            Refusal::Reach => 10,
            Refusal::Unused => 11,
            Refusal::Record => 12,
            Refusal::Room => 13,
            Refusal::Count => 14,
            Refusal::Offset => 15,
            Refusal::Fixed => 16,
            Refusal::SlopesFall => 17,
        }
    }
}
