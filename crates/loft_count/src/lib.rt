//! The count of what an engine does.
#![tactic(auto)]

mod steps;

pub use steps::Steps;
