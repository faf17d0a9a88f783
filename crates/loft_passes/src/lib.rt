//! The linked threads of an instant, over whatever runs one thread of their program: the passes over
//! them, and how they stand as the instant closes (docs/SEMANTICS.md, "Passes" and "Instant").
#![tactic(auto)]

mod close;
mod interpreter;
mod leavers;
mod pass;
mod passes;
mod runner;

pub use close::close_all;
pub use interpreter::Interpreter;
pub use pass::{WalkAll, begin_all};
pub use passes::Passes;
pub use runner::Runner;
