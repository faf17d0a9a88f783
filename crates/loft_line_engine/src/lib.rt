//! The instants of one scheduler over linked threads whose waits are kept (docs/SEMANTICS.md,
//! "Instant" and "Waiting lists"), over whatever runs one thread of its program.
#![tactic(auto)]

mod batch;
mod engine;
mod state;
mod step;

pub use engine::LineEngine;
