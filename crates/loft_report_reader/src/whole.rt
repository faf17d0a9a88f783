//! Reading a whole report.

ghost use Rattle.std.specs.Prelude.{◌≡◌, ℕ, ◌<◌, ◌≤◌, length, Ok, Err};
ghost use Rattle.std.specs.List.{find};
ghost use Rattle.std.specs.Str.{bytes_eq};
ghost use Rattle.loft_report_shape.specs.Told.{Report};
ghost use Rattle.loft_report_shape.specs.Report.{Shape, StopsAt, longest};
ghost use Rattle.loft_report_reader.specs.declared.error.LogError.TheVariants.{TooLong};
ghost use Rattle.loft_report_reader.specs.Log.{error_at};
ghost use Rattle.loft_report_reader.specs.Answer.{Answers, Says, Verdict};

use crate::error::LogError;
use crate::log::LogReader;
use crate::raw::RawReport;
use loft_base::{RunOptions, Sequence};
use loft_report_shape::{Choices, RawBlock};
use std::alloc::Global;

/// The report that a text is.
///
/// # Errors
///
/// `TooLong` exactly if the text has more than 1 GiB. Else `Ends` if it is a proper prefix of a report, and `Line` if
/// it is neither one nor a report. Out of memory.
pub fn read_report(alloc: Global, text: &[u8]) -> Result<RawReport, LogError>
    ensures verdict { Verdict text.now result }
    ensures report { (r : Report) → length text.now ≤ longest → Shape text.now r → Answers result (Ok r) }
    ensures stop { (k : ℕ) → length text.now ≤ longest → StopsAt text.now k → Answers result (Err (error_at text.now k)) }
    ensures too_long { longest < length text.now → Answers result (Err TooLong) }
{
    let mut reader = LogReader::new(alloc)?;
    match reader.feed(alloc, text) {
        Ok(()) => reader.finish(),
        Err(e) => Err(e),
    }
}

/// The options and the choices of the report that a text is.
///
/// # Errors
///
/// As `read_report`.
pub fn read_history(alloc: Global, text: &[u8]) -> Result<(RunOptions, Choices), LogError>
    ensures report { (r : Report) → length text.now ≤ longest → Shape text.now r → Says result (Ok (r.options, r.choices)) }
    ensures stop { (k : ℕ) → length text.now ≤ longest → StopsAt text.now k → Says result (Err (error_at text.now k)) }
    ensures too_long { longest < length text.now → Says result (Err TooLong) }
{
    match read_report(alloc, text) {
        Ok(
            RawReport {
                options,
                choices,
                ..
            },
        ) => Ok((options, choices)),
        Err(e) => Err(e),
    }
}

/// The first of the blocks that has the name.
fn first_named(blocks: Sequence<RawBlock>, name: &str) -> Option<RawBlock>
    ensures { result ≡ find (λ block. bytes_eq block.name name.now) blocks }
{
    blocks
        .into_vec()
        .into_iter()
        .find(|block| block.name.as_slice() == name.as_bytes())
}

/// The first block of a scheduler with this name in the report that a text is, or None if no block has the name.
///
/// # Errors
///
/// As `read_report`.
pub fn read_block(alloc: Global, text: &[u8], s: &str) -> Result<Option<RawBlock>, LogError>
    ensures report { (r : Report) → length text.now ≤ longest → Shape text.now r → Says result (Ok (find (λ block. bytes_eq block.name s.now) r.blocks)) }
    ensures stop { (k : ℕ) → length text.now ≤ longest → StopsAt text.now k → Says result (Err (error_at text.now k)) }
    ensures too_long { longest < length text.now → Says result (Err TooLong) }
{
    match read_report(alloc, text) {
        Ok(RawReport { blocks, .. }) => Ok(first_named(blocks, s)),
        Err(e) => Err(e),
    }
}
