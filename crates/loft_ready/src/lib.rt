//! What the waits of linked threads are told, and the lemmas that a run of the next thread keeps them those of the threads
//! (docs/SEMANTICS.md, "Waiting lists").
#![tactic(auto)]

mod tell;

pub use tell::{from, tell_acts, tell_ends};
