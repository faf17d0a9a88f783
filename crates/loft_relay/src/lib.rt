//! Clients give orders to one world, each from a thread of its own.
#![tactic(auto)]

mod many;
mod one;
mod orders;
mod two;

pub use many::give_each;
pub use one::{give, give_all};
pub use orders::broadcasts;
pub use two::give_both;
