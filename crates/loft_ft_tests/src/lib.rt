//! Tests of the calls of a host program's threads: two callers in threads of their own, and each call
//! once. They stand in a crate of their own, since a crate that has tests is proved twice. Nothing
//! stands on this crate.
#![tactic(auto)]

#[cfg(test)]
mod callers;
#[cfg(test)]
mod calls;
#[cfg(test)]
mod program;
