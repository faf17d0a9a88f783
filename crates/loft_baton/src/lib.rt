//! The world goes from thread to thread: who holds it, and what each pass knows of its history
//! (docs/BATON.md).
#![tactic(auto)]

mod actor_count;
mod baton;
mod boxed_world;
mod knows;
mod laws;
mod rule;

pub use baton::{Baton, Held, Pass};
pub use knows::{Knows, Own, Stage};
pub use laws::{closed_histories_are_legal, joined_passes_have_seen_both};
