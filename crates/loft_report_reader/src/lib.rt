//! Reading a report, whole or in pieces.
#![tactic(auto)]

mod ahead;
mod error;
mod log;
mod machine;
mod raw;
mod soon;
mod text_there;
mod there;
mod whole;
mod word_there;

pub use error::LogError;
pub use log::{LogReader, MAX_REPORT_LEN};
pub use raw::RawReport;
pub use whole::{read_block, read_history, read_report};
