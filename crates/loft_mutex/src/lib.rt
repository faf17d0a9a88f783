//! The program that a text with locks stands for, or why it stands for none (docs/LOCKS.md).
#![tactic(auto)]

mod checks;
mod error;
mod expanding;

pub use checks::module_names;
pub use error::MutexError;
pub use expanding::{expand, expand_named};
