//! Actors that go on by themselves, each with a pass of its own: schedulers, workers, and clients of the source.
#![tactic(auto)]

mod outsider;
mod room;
mod station;
mod worker;

pub use outsider::Outsider;
pub use station::Station;
pub use worker::Worker;
