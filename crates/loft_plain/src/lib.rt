//! Runs the instants of one scheduler, and the blocks of unlinked threads, by walking the statements of the program.
#![tactic(auto)]

mod engine;
mod job;
mod walker;

pub use engine::PlainEngine;
pub use job::PlainJob;
