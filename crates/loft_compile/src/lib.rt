//! The compiler: code for a program whose threads are linked wherever its statements need it.
#![tactic(auto)]

mod compiler;
mod copy;
mod operation;

pub use compiler::compile;
