//! Reading the report of a file.
#![tactic(auto)]

mod error;
mod read;

pub use error::ReportFileError;
pub use read::read_log;
