//! The text of a scheduler's block, in parts: its first line, its instants by `push_instant` of `loft_instant_text`, and
//! how the scheduler stands in the end.
#![tactic(auto)]

mod last;
mod start;

pub use last::push_final;
pub use start::push_block_start;
