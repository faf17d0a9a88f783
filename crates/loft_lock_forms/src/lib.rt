//! The forms of locks in a source, and the text that is read in its place (docs/LOCKS.md, "Forms").
#![tactic(auto)]

mod form;
mod names;
mod rewriting;
mod writing;

pub use form::Form;
pub use names::{long_name, reserved_name};
pub use rewriting::{Written, rewrite};
pub use writing::{Mark, Use};
