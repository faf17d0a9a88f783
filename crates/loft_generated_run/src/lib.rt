//! Runs of generated sources, and their summaries (docs/GENERATED.md).
#![tactic(auto)]

mod program;
mod run;

pub use run::{run_generated, summary_of};
