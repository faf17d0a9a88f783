//! The report of a run, and the choices of a history.
#![tactic(auto)]

mod choice;
mod law;
mod report;

pub use choice::{Choice, Choices};
pub use law::reports_of_worlds_are_of_histories;
pub use report::write_report;
