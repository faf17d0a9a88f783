//! The summary of a run of a generated source (docs/GENERATED.md, "The summary").
#![tactic(auto)]

mod summary;

pub use summary::summary_text;
