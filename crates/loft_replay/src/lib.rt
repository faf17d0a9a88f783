//! Histories that are made again from a list of choices.
#![tactic(auto)]

mod choices;
mod ended;
mod names;
mod plain;
mod plain_blocks;
mod replay;
mod whole;

pub use replay::{FollowError, Replayed, follow};
pub use whole::follow_whole;
