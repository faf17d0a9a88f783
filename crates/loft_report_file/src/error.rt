//! Why a file wasn't read as a report.

ghost use Rattle.std.specs.Prelude.{◌≡◌};
ghost use Rattle.loft_report_reader.specs.declared.error.LogError.TheVariants.{NoMemory as no_memory};
ghost use Rattle.loft_report_file.specs.declared.error.ReportFileError.TheVariants.{Failed as failed, Log as log};

use loft_base::{Failed, NoMemory};
use loft_report_reader::LogError;

/// Why a file wasn't read as a report.
#[derive(Clone, Copy, Debug, PartialEq, Eq)]
pub enum ReportFileError {
    /// A part of the file failed; the count of faults rose.
    Failed,
    /// It isn't a report, or out of memory for what it tells.
    Log(LogError),
}

impl From<Failed> for ReportFileError {
    ghost from_gives = { λ _ e. e ≡ failed };

    fn from(_error: Failed) -> ReportFileError {
        ReportFileError::Failed
    }
}

impl From<LogError> for ReportFileError {
    ghost from_gives = { λ error e. e ≡ log error };

    fn from(error: LogError) -> ReportFileError {
        ReportFileError::Log(error)
    }
}

impl From<NoMemory> for ReportFileError {
    ghost from_gives = { λ _ e. e ≡ log no_memory };

    fn from(_error: NoMemory) -> ReportFileError {
        ReportFileError::Log(LogError::NoMemory)
    }
}
