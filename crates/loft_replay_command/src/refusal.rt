//! Why a report is refused, and what else stops the command.

ghost use Rattle.std.specs.Prelude.{◌≡◌, [], ◌∷◌, ◌++◌, IfOk, codes, string_bytes};
ghost use Rattle.std.specs.Fmt.{decimal};
ghost use Rattle.loft_replay_command.specs.Refusals.{report_line, log_line};

use loft_base::NoMemory;
use loft_refusal::Refusal;
use loft_report_reader::LogError;
use std::alloc::Global;

/// Why a report is refused.
#[derive(Clone, Copy)]
pub enum LogRefusal {
    /// It isn't a report; never out of memory.
    NoReport(LogError),
    /// This entry of its history isn't allowed, counted from 1.
    Entry(u64),
    /// This instant of the block isn't allowed, counted from 1.
    Instant(u64),
    /// It is another one than that of its history, or than one with the block of its batches, after so many bytes.
    Byte(u64),
}

/// What stops the command before its answer is whole.
#[derive(Drop)]
pub enum ReplayStop {
    /// The source is refused; nothing was written.
    Source(Refusal),
    /// The source has no scheduler of the name; nothing was written.
    UnknownScheduler,
    /// The report is refused; nothing was written.
    Log(LogRefusal),
    /// A file could not be read; nothing was written.
    FileFault,
    /// The answer could not be written; a prefix of it was.
    SinkFault,
    /// Out of memory; a prefix of the answer was written.
    NoMemory,
}

/// The line of a text that isn't a report, with its line feed. `NoMemory` where it is out of memory, or the fault is that.
fn report_line(alloc: Global, fault: LogError) -> Result<String, NoMemory>
    ensures { IfOk result (λ line. string_bytes line ≡ report_line fault ++ 10 ∷ []) }
{
    let line = match fault {
        LogError::Line { n, byte } => format!(in alloc; "log: line {n}, byte {byte}\n"),
        LogError::Ends { byte } => format!(in alloc; "log: ends at byte {byte}\n"),
        LogError::TooLong => String::from_str(alloc, "log: too long\n"),
        LogError::NoMemory => return Err(NoMemory),
    };
    Ok(line?)
}

/// The line of what isn't allowed, after its words, with its line feed.
fn not_allowed(alloc: Global, what: &str, number: u64) -> Result<String, NoMemory>
    ensures { IfOk result (λ line. string_bytes line
        ≡ (what.now ++ (decimal number ++ codes " not allowed")) ++ 10 ∷ []) }
{
    Ok(format!(in alloc; "{what}{number} not allowed\n")?)
}

impl LogRefusal {
    /// The line of the refusal, with its line feed (docs/COMMANDS.md, "Fault lines").
    ///
    /// # Errors
    ///
    /// Out of memory, or the refusal is that.
    pub fn line(self, alloc: Global) -> Result<String, NoMemory>
        ensures { IfOk result (λ line. string_bytes line ≡ log_line self ++ 10 ∷ []) }
    {
        match self {
            LogRefusal::NoReport(fault) => report_line(alloc, fault),
            LogRefusal::Entry(n) => not_allowed(alloc, "log: entry ", n),
            LogRefusal::Instant(n) => not_allowed(alloc, "log: instant ", n),
            LogRefusal::Byte(byte) => Ok(format!(in alloc; "log: differs at byte {byte}\n")?),
        }
    }
}
