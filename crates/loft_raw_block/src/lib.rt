//! A block of a report in memory: where it stands in the report's text, and where it differs from another text.
#![tactic(auto)]

mod compare;
mod offset;

pub use compare::first_difference;
pub use offset::offset_after;
