//! Tests of the count of what an engine does: what its instants add to it. They stand in a crate of their own, since a crate
//! that has tests is proved twice. Nothing stands on this crate.
#![tactic(auto)]

#[cfg(test)]
mod batch;
#[cfg(test)]
mod instant;
#[cfg(test)]
mod waiting;
