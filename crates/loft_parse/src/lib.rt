//! The parser: the program that a text is, or its fault.
#![tactic(auto)]

mod error;
mod law;
mod source;

pub use error::ParseError;
pub use law::{faults_are_local, limits_come_before_stops, texts_are_decided};
pub use source::parse;
