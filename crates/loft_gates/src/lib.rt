//! Tests of what gates show: that two schedulers, and two workers, are in their turns at the same time, and that a turn passes
//! the gate before what it sends is known. Nothing stands on this crate.
#![tactic(auto)]

#[cfg(test)]
mod held;
#[cfg(test)]
mod meeting;
