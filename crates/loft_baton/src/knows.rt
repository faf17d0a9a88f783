//! What a pass knows (docs/BATON.md, "What a pass knows"). No value of these types is made: they are
//! for proofs alone.

use loft_code::CodeProgram;
use loft_orders::{Actor, Entry};
use std::collections::LinkedList;

/// The entries of one actor, in order.
pub struct Own {
    pub actor: Actor,
    pub entries: LinkedList<Entry>,
}

/// Whether a pass is in use.
pub enum Stage {
    /// The world hasn't been put in yet.
    Fresh,
    /// It is in use.
    Live,
    /// It was joined into another.
    Spent,
}

/// What a pass knows.
pub struct Knows {
    /// Whether it is in use.
    pub stage: Stage,
    /// Whether it holds the world.
    pub holds: bool,
    /// Whether it is the giving pass, which makes passes for further actors.
    pub gives: bool,
    /// The code with which the baton was made, while the pass is in use.
    pub code: Option<CodeProgram>,
    /// In the giving pass: the actors given out, in order.
    pub given: LinkedList<Actor>,
    /// Its actors, each with all its entries.
    pub own: LinkedList<Own>,
    /// A prefix of the history: what it saw as it last took the world or gave it back.
    pub seen: LinkedList<Entry>,
    /// What had been seen by each pass that was joined into it.
    pub olds: LinkedList<LinkedList<Entry>>,
}
