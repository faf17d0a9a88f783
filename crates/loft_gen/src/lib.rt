//! Sources that are made from a number (docs/GENERATED.md).
#![tactic(auto)]

mod source;

pub use source::{GENERATED_MAX, rounds_of, source_of, threads_of};
