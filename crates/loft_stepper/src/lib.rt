//! Runs the threads of a program by the operations of its code.
#![tactic(auto)]

mod stepper;

pub use stepper::Stepper;
