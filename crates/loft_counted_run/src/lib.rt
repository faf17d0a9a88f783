//! One run of a linked thread, whose steps are counted.
#![tactic(auto)]

mod counted;
mod interpreter;

pub use counted::run_counted;
pub use interpreter::CountedInterpreter;
