//! Whether a thread stands in a program.
#![tactic(auto)]

mod frame;
mod search;
mod slots;
mod stop;
mod thread;
mod wait;

pub use thread::stands;
pub use wait::is_new;
