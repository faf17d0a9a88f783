//! The text of an instant: its lines, as a report gives them, and its length.
#![tactic(auto)]

mod ends;
mod instant;
mod lines;
mod order_text;
mod thread_text;

pub use ends::{are_in_order, ends_from, push_ends};
pub use instant::{note_length, push_instant};
pub use lines::{InOneLine, push_end_line, push_leave_line, push_order_line};
pub use order_text::push_order;
pub use thread_text::push_thread;
