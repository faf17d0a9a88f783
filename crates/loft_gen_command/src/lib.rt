//! What the command `gen` writes: the source of a number, or the summary of its run (docs/GENERATED.md).
#![tactic(auto)]

mod writing;

pub use writing::{write_source, write_summary};
