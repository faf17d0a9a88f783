//! An actor's place in a run.

use loft_baton::Pass;

/// The pass of one actor, and how many entries the history had when the actor saw it last: 0 before it
/// has seen any.
#[derive(Drop)]
pub struct Seat {
    pub pass: Pass,
    pub length: u64,
}
