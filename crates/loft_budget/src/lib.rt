//! Step bounds: how many steps a thread can make in an instant, as its module tells it, and the law
//! that a budget of so many is enough.
#![tactic(auto)]

pub mod laws;
mod steps;
mod verdict;

pub use laws::{bounded_threads_never_run_over, modules_have_one_verdict};
pub use steps::Steps;
pub use verdict::{Verdict, Verdicts};
