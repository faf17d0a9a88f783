//! Why a text isn't a report.

ghost use Rattle.std.specs.Prelude.{◌≡◌};
ghost use Rattle.loft_report_reader.specs.declared.error.LogError.TheVariants.{NoMemory as no_memory};

use loft_base::NoMemory;

/// Why a text isn't a report (docs/REPORT.md, "The grammar").
#[derive(Clone, Copy, Debug, PartialEq, Eq)]
pub enum LogError {
    /// It is neither a report nor a prefix of one.
    Line {
        /// The line in which it stops, counted from 1.
        n: u64,
        /// After how many bytes it stops.
        byte: u64,
    },
    /// It is a proper prefix of a report.
    Ends {
        /// How many bytes it has.
        byte: u64,
    },
    /// It has more than 1 GiB.
    TooLong,
    /// Out of memory for what it tells.
    NoMemory,
}

impl From<NoMemory> for LogError {
    ghost from_gives = { λ _ e. e ≡ no_memory };

    fn from(_error: NoMemory) -> LogError {
        LogError::NoMemory
    }
}
