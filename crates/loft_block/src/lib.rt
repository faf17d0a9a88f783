//! The orders of an unlinked thread, one by one as they are made, over whatever runs one thread of their program.
#![tactic(auto)]

mod block;
mod laws;
mod piece;
mod told;

pub use block::Block;
pub use laws::what_was_done_before_changes_nothing;
