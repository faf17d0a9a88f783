//! The options of a report are in their ranges.
#![tactic(auto)]

pub mod laws;

pub use laws::options_of_reports_are_in_range;
