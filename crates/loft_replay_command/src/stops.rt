//! What stops the command, by what a part of it answered.

ghost use Rattle.std.specs.Prelude.{◌≡◌};
ghost use Rattle.loft_replay_command.specs.Stops.{stop_of_source, stop_of_log, stop_of_file, stop_of_whole, stop_of_block, stop_of_write};

use crate::refusal::{LogRefusal, ReplayStop};
use loft_base::WriteError;
use loft_refusal::Stopped;
use loft_replay_error::ReplayError;
use loft_report_file::ReportFileError;
use loft_report_reader::LogError;

impl From<Stopped> for ReplayStop {
    ghost from_gives = { λ stopped stop. stop ≡ stop_of_source stopped };

    fn from(stopped: Stopped) -> ReplayStop {
        match stopped {
            Stopped::Refused(refusal) => ReplayStop::Source(refusal),
            Stopped::FileFault => ReplayStop::FileFault,
            Stopped::SinkFault => ReplayStop::SinkFault,
            Stopped::NoMemory => ReplayStop::NoMemory,
        }
    }
}

impl From<ReportFileError> for ReplayStop {
    ghost from_gives = { λ error stop. stop ≡ stop_of_file error };

    fn from(error: ReportFileError) -> ReplayStop {
        match error {
            ReportFileError::Failed => ReplayStop::FileFault,
            ReportFileError::Log(error) => stop_of_log(error),
        }
    }
}

impl From<WriteError> for ReplayStop {
    ghost from_gives = { λ error stop. stop ≡ stop_of_write error };

    fn from(error: WriteError) -> ReplayStop {
        match error {
            WriteError::Sink => ReplayStop::SinkFault,
            WriteError::NoMemory => ReplayStop::NoMemory,
        }
    }
}

/// Why a text isn't a report.
fn stop_of_log(error: LogError) -> ReplayStop
    ensures { result ≡ stop_of_log error }
{
    match error {
        LogError::NoMemory => ReplayStop::NoMemory,
        error => ReplayStop::Log(LogRefusal::NoReport(error)),
    }
}

/// Why a whole report isn't replayed.
pub(crate) fn stop_of_whole(error: ReplayError) -> ReplayStop
    ensures { result ≡ stop_of_whole error }
{
    match error {
        ReplayError::Log(error) => stop_of_log(error),
        ReplayError::NotAllowed { entry } => ReplayStop::Log(LogRefusal::Entry(entry)),
        ReplayError::Differs { byte } => ReplayStop::Log(LogRefusal::Byte(byte)),
        ReplayError::NoMemory => ReplayStop::NoMemory,
    }
}

/// Why a block isn't.
pub(crate) fn stop_of_block(error: ReplayError) -> ReplayStop
    ensures { result ≡ stop_of_block error }
{
    match error {
        ReplayError::Log(error) => stop_of_log(error),
        ReplayError::NotAllowed { entry } => ReplayStop::Log(LogRefusal::Instant(entry)),
        ReplayError::Differs { byte } => ReplayStop::Log(LogRefusal::Byte(byte)),
        ReplayError::NoMemory => ReplayStop::NoMemory,
    }
}
