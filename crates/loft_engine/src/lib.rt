//! Runs the instants of one scheduler by the operations of valid code.
#![tactic(auto)]

mod engine;

pub use engine::CodeEngine;
