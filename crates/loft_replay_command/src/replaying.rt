//! The call: a source and a report are read, and the report is checked by the source.

ghost use Rattle.std.specs.Prelude.{◌≡◌, ◌≢◌, ◌≤◌, ℕ, List, Some, Err, IsTrue, IsErrOf};
ghost use Rattle.std.specs.Option.{option_copied};
ghost use Rattle.loft_base.specs.Outside.{Rose};
ghost use Rattle.loft_replay_command.specs.Replay.{IsSourceStop};
ghost use Rattle.loft_replay_command.specs.Command.{Replays};

use crate::finding::find;
use crate::refusal::ReplayStop;
use loft_base::{Files, Sink, write_lines};
use std::alloc::Global;

/// Checks the report in a file by the source in another one: the whole report, or the block of the scheduler that is
/// named. Writes the line `ok`, or the block (docs/COMMANDS.md, "replay"). The source is read and checked whole, and the
/// scheduler is looked up, before the report is opened. Nothing is written before the report has been checked, and each
/// line is written by a `put` of its own.
///
/// # Errors
///
/// `Source` if the source is refused, and else `UnknownScheduler` if it has no scheduler of the name: both say nothing of
/// the report. Else `Log` if the report is refused. `FileFault` only if the count of the files' faults rose, `SinkFault`
/// only if that of the sink did. Out of memory.
pub fn replay<F: Files, S: Sink>(
    alloc: Global,
    source: &str,
    report: &str,
    only: Option<&str>,
    files: &mut F,
    sink: &mut S,
) -> Result<(), ReplayStop>
    requires source { IsTrue (F.may_ask files.old source.now) }
    requires report { IsTrue (F.may_ask files.old report.now) }

    ensures replays { Replays (option_copied only.entry)
        (F.contents files.old source.now) (F.contents files.old report.now) result
        (S.written sink.old) (S.written sink.new) (S.room sink.old) (S.room sink.new)
        (S.by_lines sink.old) (S.by_lines sink.new) }

    // A failure has its cause in this call.
    ensures file_fault { IsErrOf result ReplayStop.FileFault → Rose (F.faults files.old) (F.faults files.new) }
    ensures sink_fault { IsErrOf result ReplayStop.SinkFault → Rose (S.faults sink.old) (S.faults sink.new) }
    ensures files_never_fall { F.faults files.old ≤ F.faults files.new }
    ensures sink_never_falls { S.faults sink.old ≤ S.faults sink.new }

    // What is known of the names' faults is known of the answer; a source that is refused is refused whatever fails of
    // the report.
    ensures sure { IsTrue (F.never_fails files.old source.now) → IsTrue (F.never_fails files.old report.now)
        → result ≢ Err ReplayStop.FileFault }
    ensures no_fault { IsTrue (F.never_fails files.old source.now) → IsTrue (F.never_fails files.old report.now)
        → F.faults files.new ≡ F.faults files.old }
    ensures source_first { (s : List ℕ) (e : ReplayStop) → IsTrue (F.never_fails files.old source.now)
        → F.contents files.old source.now ≡ Some s → IsSourceStop (option_copied only.entry) s e
        → result ≢ Err ReplayStop.FileFault × (F.faults files.new ≡ F.faults files.old) }
{
    let answer = find(alloc, source, report, only, files)?;
    write_lines(answer.text(), sink)?;
    Ok(())
}
