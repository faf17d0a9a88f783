//! What threads may share: valid code.
#![tactic(auto)]

mod shared;

pub use shared::code_is_shared;
