//! The grammar of sources: which text is which program, and the readers of its tokens.
#![tactic(auto)]

mod counts;
mod cursor;
mod limited;
pub mod lookahead;
pub mod operator;
mod reader;
mod symbol;
pub mod token;

pub use counts::{Counted, Counts};
pub use cursor::Cursor;
pub use limited::{Limited, LineLimits, SourceLimits};
pub use reader::Reader;
