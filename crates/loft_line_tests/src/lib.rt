//! Tests of linked threads whose waits are kept: how they stand after a batch. They stand in a crate of their own, since a
//! crate that has tests is proved twice. Nothing stands on this crate.
#![tactic(auto)]

#[cfg(test)]
mod batch;
