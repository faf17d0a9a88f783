//! The head of a report as it is written is the head as it is read.
#![tactic(auto)]

pub mod laws;

pub use laws::writers_and_readers_have_one_head;
