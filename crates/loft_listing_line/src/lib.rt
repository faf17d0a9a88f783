//! The lines of a listing, each by itself (docs/CODE.md, "Lines of a listing").
#![tactic(auto)]

mod cut;
mod deed;
mod law;
mod line;
mod name;
mod operation;
mod part;
mod put;
mod read;
mod row;
mod sort;
mod value;

pub use law::lines_end_at_their_feeds;
pub use line::first_line;
pub use put::write_row;
pub use read::read_row;
pub use row::{Deed, OperationRow, Row};
