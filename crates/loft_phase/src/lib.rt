//! Phases of a run: each actor makes turns on a thread of its own.
#![tactic(auto)]

mod alone;
mod jobs;
mod phases;
mod turns;

pub use alone::go_alone;
pub use jobs::work_alone;
pub use phases::{Actors, phase};
pub use turns::turn_alone;
