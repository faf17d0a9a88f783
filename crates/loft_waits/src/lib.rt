//! The waits of one scheduler's linked threads: who waits for what, and who can go
//! (docs/SEMANTICS.md, "Waiting lists").
#![tactic(auto)]

mod entry;
mod flags;
mod key;
mod laws;
mod places;
mod plain;
mod waits;
mod wake;

pub use flags::Flags;
pub use laws::{counts_follow_the_board, ready_is_can_go};
pub use waits::Waits;
