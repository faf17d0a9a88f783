//! What may go to another thread: an engine of a scheduler, and a block of an unlinked thread.
#![tactic(auto)]

mod moving;

pub use moving::{engine_may_move, job_may_move};
