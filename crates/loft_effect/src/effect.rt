//! What becomes of a thread by a statement.

use loft_orders::{End, To, Wait};

/// What becomes of a thread by a statement (docs/SEMANTICS.md, "Statements").
#[derive(Drop)]
pub enum Effect {
    /// It goes on at once.
    GoesOn,
    Waits(Wait),
    Leaves(To),
    Dies(End),
}
