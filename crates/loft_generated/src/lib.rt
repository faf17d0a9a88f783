//! The programs of generated sources, and the law that each is correct (docs/GENERATED.md, "The source").
#![tactic(auto)]

mod law;

pub use law::generated_sources_are_correct;
