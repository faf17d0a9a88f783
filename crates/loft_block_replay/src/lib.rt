//! The replay of one scheduler's block of a report.
#![tactic(auto)]

mod batch;
mod block;
mod instants;
mod one;

pub use one::{raw_one, replay_one};
