//! Names and kinds: numbers in place of names.
#![tactic(auto)]

mod laws;
mod names;
mod program;

pub use laws::{heads_are_kept, names_are_decided, names_fit_means, numbers_name_heads};
pub use names::declared_names;
pub use program::resolve;
