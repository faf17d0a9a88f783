//! Tests of texts with locks: what `expand` answers. They stand in a crate of their own, since a crate that has tests is
//! proved twice. Nothing stands on this crate.
#![tactic(auto)]

#[cfg(test)]
mod expanding;
