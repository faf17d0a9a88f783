//! Orders from their lines in a report.
#![tactic(auto)]

mod cut;
mod ends;
mod line;
mod list;
mod names;
mod number;
mod order;
mod thread;
mod value;

pub use cut::cut_at;
pub use line::read_order;
