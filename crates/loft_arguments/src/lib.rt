//! What the words after the program's name ask for.
#![tactic(auto)]

mod argument;
mod command;
mod defaults;
mod laws;
mod number;
mod parts;

pub use command::{Command, FileCommand, read_words};
pub use defaults::{DEFAULT_BLOCK, DEFAULT_BUDGET, DEFAULT_INSTANTS, DEFAULT_WORKERS};
pub use laws::{arguments_change_places, options_have_two_forms};
