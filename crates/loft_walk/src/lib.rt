//! One thread walks the statements of a program, from where it stood to the stop that holds it or by which it leaves, or to
//! its end.
#![tactic(auto)]

mod paused;
mod resume;
mod running;
mod step;
mod stopping;
mod thread;
mod work;

pub use loft_effect::{Gone, Outcome, Progress};
pub use paused::Paused;
pub use thread::{begin, go, go_on};
