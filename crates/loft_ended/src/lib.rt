//! The threads that are known as ended (docs/SEMANTICS.md, "CanGo").
#![tactic(auto)]

mod ended;
mod keys;

pub use ended::Ended;
