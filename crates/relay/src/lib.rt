// The relay: the record, its start, sample and reset calls, and its register page, read and written a byte at a time.

#![tactic(auto)]

pub mod accepting;
pub mod calls;
pub mod paging;
pub mod starting;

use measuring::Reading;
use overcurrent::{Backup, Trips};
use page::Events;
use refusal::Refusal;
use setting::Setting;
use state::{Trip, Window};
use systems::Systems;

// The relay record.
#[derive(Clone, Copy)]
pub struct Relay {
    pub setting: Setting,
    pub window: Window,
    pub trip: Trip,
    pub events: Events,
    pub backup: Backup,
}

// What a Measured answer says of a system.
#[derive(Clone, Copy)]
pub struct Measure {
    pub reading: Reading,
    pub latched: bool,
}

// What an accepted set is answered with: the number of sets held while the window fills; once it is full the three systems, and which ends' overcurrent
// elements have tripped.
#[derive(Clone, Copy)]
pub enum Answer {
    Filling(u8),
    Measured(Systems<Measure>, Trips),
}

// The answer to a call, or its refusal, and the record that comes back: blank where a start is refused.
#[derive(Clone, Copy)]
pub struct Returned<T> {
    pub answer: Result<T, Refusal>,
    pub relay: Relay,
}
