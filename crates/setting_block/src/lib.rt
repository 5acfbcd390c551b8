// The setting block: 512 bytes, read to setting values and written from them.

#![tactic(auto)]

pub mod reader;
pub mod writer;
