//! Why a report isn't that of its history.

ghost use Rattle.std.specs.Prelude.{◌≡◌};
ghost use Rattle.loft_replay_error.specs.Errors.{of_log};
ghost use Rattle.loft_replay_error.specs.declared.error.ReplayError.TheVariants.{NoMemory as no_memory};

use loft_base::NoMemory;
use loft_report_reader::LogError;

/// Why a report isn't that of its history, or a block of it isn't that of its batches (docs/REPORT.md, "Replay").
#[derive(Clone, Copy, Debug, PartialEq, Eq)]
pub enum ReplayError {
    /// The text isn't a report. It is never out of memory here.
    Log(LogError),
    /// This entry of the history, or this instant of the block, isn't allowed, counted from 1.
    NotAllowed { entry: u64 },
    /// The text is another one than that of the history or of the batches, after so many bytes.
    Differs { byte: u64 },
    /// Out of memory.
    NoMemory,
}

impl From<LogError> for ReplayError {
    ghost from_gives = { λ e error. error ≡ of_log e };

    fn from(error: LogError) -> ReplayError {
        match error {
            LogError::NoMemory => ReplayError::NoMemory,
            other => ReplayError::Log(other),
        }
    }
}

impl From<NoMemory> for ReplayError {
    ghost from_gives = { λ _ error. error ≡ no_memory };

    fn from(_error: NoMemory) -> ReplayError {
        ReplayError::NoMemory
    }
}
