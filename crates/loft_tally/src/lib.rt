//! What a scheduler has used of its bounds, before its first instant and after each.
#![tactic(auto)]

mod tally;

pub use tally::{first_tally, tally_after};
