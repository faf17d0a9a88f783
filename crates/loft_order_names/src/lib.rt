//! Whether all that an order to a scheduler names is declared.
#![tactic(auto)]

mod creation;
mod event;
mod thread;

pub use creation::creation_fits;
pub use event::{end_names, is_event_of};
pub use thread::{is_thread, thread_names};
