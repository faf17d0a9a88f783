//! The head of a report can be read in one way: it names one list of choices, of declared actors.
#![tactic(auto)]

pub mod laws;

pub use laws::heads_are_read_in_one_way;
