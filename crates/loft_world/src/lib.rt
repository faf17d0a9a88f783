//! The history of a run, with what waits beside it: one call, one entry.
#![tactic(auto)]

mod counts;
mod orders;
mod results;
mod start;
mod world;

pub use loft_orders::{Actor, Entry};
pub use results::{FinalStates, Finals, Finished, NoteList, NoteLists, Notes};
pub use world::World;
