// The parts of the relay record between calls: each put to another value, and each printed.

#![tactic(auto)]

pub mod changed;
pub mod printed;
