//! Why a source, a listing or a text with locks is refused, the line that says so, and the readers that refuse: what a command does before it
//! answers.
#![tactic(auto)]

mod fault_line;
mod listing;
mod lock_line;
mod locks;
mod refusal;
mod source;

pub use listing::read_code;
pub use locks::expand_program;
pub use refusal::{Refusal, Stopped};
pub use source::{place_program, read_program};
