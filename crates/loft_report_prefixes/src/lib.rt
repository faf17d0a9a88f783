//! The prefixes of reports are the texts that go on: each text that stops at its end can be completed to a report.
#![tactic(auto)]

pub mod laws;

pub use laws::{prefixes_of_reports_stop_at_their_end, texts_that_stop_at_their_end_are_prefixes};
