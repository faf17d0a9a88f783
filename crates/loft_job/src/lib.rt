//! The orders of an unlinked thread by its code, one by one as they are made.
#![tactic(auto)]

mod job;

pub use job::{Job, JobStep};
