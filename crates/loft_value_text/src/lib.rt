//! The texts of values, as threads print them and as reports give them.
#![tactic(auto)]

mod frame;
mod length;
mod line;
mod text;
mod writer;

pub use length::TextLength;
pub use line::LineBuffer;
pub use text::{
    Item, push_client_name, push_end, push_event_name, push_id, push_module_name, push_name_at,
    push_scheduler_name, push_separated, push_separated_by, push_shared_name,
};
pub use writer::TextWriter;
