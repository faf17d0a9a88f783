//! What comes after a spelling of each part of a report.
#![tactic(auto)]

mod after;
mod line;
mod order;
mod parts;
mod value;

pub use parts::PartStack;
