//! Tests of programs over batons: clients in threads of their own. They stand in a crate of their own, since a crate that
//! has tests is proved twice. Nothing stands on this crate.
#![tactic(auto)]

#[cfg(test)]
mod clients;
#[cfg(test)]
mod program;
