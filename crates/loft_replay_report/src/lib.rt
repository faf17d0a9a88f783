//! Reports are checked: each is replayed, and compared with the report of its own history.
#![tactic(auto)]

mod difference;
mod raw;
mod whole;

pub use difference::first_difference;
pub use loft_replay_error::ReplayError;
pub use raw::replay_raw;
pub use whole::replay_all;
