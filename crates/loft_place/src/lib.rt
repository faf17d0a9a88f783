//! Links: where the threads of a program are linked at each of its statements.
#![tactic(auto)]

mod error;
mod laws;
mod links;
mod needs;
mod placed;
mod walk;

pub use error::PlaceError;
pub use laws::{links_are_decided, placed_programs_never_meet, threads_begin_in_their_place};
pub use placed::{Placed, place};
