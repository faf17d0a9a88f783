//! Where threads may stand in a list, by their ids (docs/SEMANTICS.md, "Waiting lists").
#![tactic(auto)]

mod finder;
mod key;

pub use finder::Finder;
pub use key::{IdKey, MakerKey};
