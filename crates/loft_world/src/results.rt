//! What the schedulers of a program leave.

use crate::world::World;
use loft_base::Sequence;
use loft_orders::{FinalState, InstantNote};

/// How schedulers stand, one for each, in the order of their declarations.
pub type FinalStates = Sequence<FinalState>;

/// The notes of one scheduler, one for each of its instants, in order.
pub type NoteList = Sequence<InstantNote>;

/// The notes of schedulers, a list for each, in the order of their declarations.
pub type NoteLists = Sequence<NoteList>;

/// How each scheduler stands after its last instant.
#[derive(Drop)]
pub struct Finals {
    pub of: FinalStates,
}

/// What each scheduler's instants did.
#[derive(Drop)]
pub struct Notes {
    pub of: NoteLists,
}

/// A run that has ended: its world, the notes of each scheduler's instants, and how each scheduler
/// stands at the end.
#[derive(Drop)]
pub struct Finished {
    pub world: World,
    pub notes: Notes,
    pub finals: Finals,
}
