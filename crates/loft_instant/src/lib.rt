//! The instants of one scheduler, over whatever runs one thread of its program.
#![tactic(auto)]

mod batch;
mod engine;
mod instant;
mod rest;
mod shared;

pub use batch::new_thread;
pub use engine::InstantEngine;
pub use instant::{Setting, fitted};
pub use shared::{changes, keep_values, own_of, shared_values};
