//! Reading a report from a file, piece by piece.

ghost use Rattle.std.specs.Prelude.{◌≡◌, ◌≢◌, ◌⊎◌, ◌<◌, ◌≤◌, ℕ, length, Ok, Err, IsTrue, IfSome, IsErrOf};
ghost use Rattle.loft_base.specs.Outside.{Rose};
ghost use Rattle.loft_report_shape.specs.Told.{Report};
ghost use Rattle.loft_report_shape.specs.Report.{Shape, StopsAt, longest};
ghost use Rattle.loft_report_reader.specs.Log.{error_at};
ghost use Rattle.loft_report_reader.specs.declared.error.LogError.TheVariants.{TooLong, NoMemory as no_memory};
ghost use Rattle.loft_report_file.specs.declared.error.ReportFileError.TheVariants.{Failed as failed, Log as log};
ghost use Rattle.loft_report_file.specs.Answer.{FileAnswers, FileVerdict, IsOfAll};

use crate::error::ReportFileError;
use loft_base::{FileWalk, Files};
use loft_report_reader::{LogError, LogReader, MAX_REPORT_LEN, RawReport};
use std::alloc::Global;

/// How many bytes of a file are asked for at once.
const PART: usize = 65536;

/// The report that a file is. The file is read in parts of at most 65,536 bytes, of which the last alone is kept, and it
/// is read on after an error: a fault of the files comes before each error of the text, and `TooLong` before the others.
///
/// # Errors
///
/// `Failed` only if the count of faults rose. Else `TooLong` exactly if the file has more than 1 GiB. Else `Ends` if it is
/// a proper prefix of a report, and `Line` if it is neither one nor a report. Out of memory.
pub fn read_log<F: Files>(
    alloc: Global,
    files: &mut F,
    name: &str,
) -> Result<RawReport, ReportFileError>
    requires asked { IsTrue (F.may_ask files.old name.now) }

    // The answer is that of the file's contents, where they are known.
    ensures verdict { IfSome (F.contents files.old name.now) (λ file. FileVerdict file result) }
    ensures report { IfSome (F.contents files.old name.now) (λ file. (r : Report) → length file ≤ longest → Shape file r → FileAnswers result (Ok r)) }
    ensures stop { IfSome (F.contents files.old name.now) (λ file. (k : ℕ) → length file ≤ longest → StopsAt file k → FileAnswers result (Err (error_at file k))) }
    ensures too_long { IfSome (F.contents files.old name.now) (λ file. longest < length file → FileAnswers result (Err TooLong)) }

    // It was read to its end, but past 1 GiB.
    ensures ended { IsOfAll result → IfSome (F.contents files.old name.now) (λ file. F.place files.new ≡ length file) }
    ensures past_limit { IsErrOf result (log TooLong) → longest < F.place files.new }

    // A fault has its cause in this call.
    ensures cause { IsErrOf result failed → Rose (F.faults files.old) (F.faults files.new) }
    ensures restarted { IsErrOf result failed → F.place files.new ≡ 0 }
    ensures never_falls { F.faults files.old ≤ F.faults files.new }

    // What is known of a name's faults is known of the answer.
    ensures sure { IsTrue (F.never_fails files.old name.now) → result ≢ Err failed }
    ensures no_fault { IsTrue (F.never_fails files.old name.now) → F.faults files.new ≡ F.faults files.old }
    ensures refused { IsTrue (F.always_fails files.old name.now) → IsErrOf result failed ⊎ IsErrOf result (log no_memory) }

    ensures same_contents { F.contents files.new ≡ F.contents files.old }
    ensures same_names { F.may_ask files.new ≡ F.may_ask files.old }
    ensures same_sure { F.never_fails files.new ≡ F.never_fails files.old }
    ensures same_refused { F.always_fails files.new ≡ F.always_fails files.old }
{
    let mut reader = LogReader::new(alloc)?;
    let mut walk = FileWalk::new(alloc, PART)?;
    while walk.advance(files, name)? {
        if MAX_REPORT_LEN < walk.count() {
            return Err(ReportFileError::Log(LogError::TooLong));
        }
        // An error is kept, and answered at the end.
        let _answer = reader.feed(alloc, walk.part());
    }
    match reader.finish() {
        Ok(report) => Ok(report),
        Err(e) => Err(ReportFileError::Log(e)),
    }
}
