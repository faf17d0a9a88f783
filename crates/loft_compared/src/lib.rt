//! A report is compared with a text that is written piece by piece.
#![tactic(auto)]

mod comparison;
mod found;
mod known_text;
mod lines;
mod place;
mod walk;

pub use comparison::Comparison;
pub use known_text::KnownText;
