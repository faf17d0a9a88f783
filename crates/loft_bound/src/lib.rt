//! How many steps the threads of each module can make in an instant, as it is found in the source
//! before any run.
#![tactic(auto)]

mod bounded;
mod reaching;
mod text;
mod verdicts;

pub use text::bound_text;
pub use verdicts::bounds;
