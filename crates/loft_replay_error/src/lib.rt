//! Why a report isn't that of its history.
#![tactic(auto)]

mod error;

pub use error::ReplayError;
