//! Whole runs of code.
#![tactic(auto)]

mod run;

pub use run::run_whole;
