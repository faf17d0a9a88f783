//! Pairs of locks in the modules of a program, and what leaves them (docs/LOCKS.md, "Pairs").
#![tactic(auto)]

mod leaves;
mod leaving;
mod marks;
mod pairs;

pub use leaves::first_leaving;
pub use leaving::leaving_modules;
pub use pairs::first_unpaired;
