//! The steps of a body, by those of the modules that it runs, and what stands first in it: a `run`
//! of a module of a kind, a loop that needn't end.
#![tactic(auto)]

mod find;
mod steps;
mod walk;

pub use find::{first_endless, first_run, has_mark};
pub use steps::MOST_COUNTED;
pub use walk::body_steps;
