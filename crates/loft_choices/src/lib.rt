//! The lines of choices, as they stand in the head of a report (docs/REPORT.md, "The report").
#![tactic(auto)]

mod line;

pub use line::make_choice_line;
