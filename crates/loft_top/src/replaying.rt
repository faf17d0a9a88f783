//! What the program does with the report of a run.

ghost use Rattle.std.specs.Prelude.{◌≡◌, ◌≢◌, ◌≤◌, ◌∷◌, [], IsTrue};
ghost use Rattle.std.specs.Option.{option_copied};
ghost use Rattle.loft_base.specs.Outside.{Rose};
ghost use Rattle.loft_arguments.specs.Command.{Replay};
ghost use Rattle.loft_top.specs.Reads.{contents_of};
ghost use Rattle.loft_top.specs.Answer.{Answers};

use crate::status::Status;
use crate::telling::{refuse, refuse_report, tell};
use loft_base::{Files, Sink};
use loft_replay_command::{ReplayStop, replay};
use std::alloc::Global;

/// Checks the report in a file by the source in another one, and answers.
pub(crate) fn check_report<F: Files, S: Sink>(
    alloc: Global,
    source: &str,
    report: &str,
    only: Option<&str>,
    files: &mut F,
    sink: &mut S,
) -> Status
    requires source { IsTrue (F.may_ask files.old source.now) }
    requires report { IsTrue (F.may_ask files.old report.now) }
    ensures answers { Answers (Replay source.now report.now (option_copied only.entry))
        (contents_of (F.contents files.old) (source.now ∷ report.now ∷ [])) result
        (S.written sink.old) (S.written sink.new) (F.faults files.old) (F.faults files.new)
        (S.room sink.old) (S.by_lines sink.old) (S.by_lines sink.new) }
    ensures file_fault { result ≡ Status.FileFault → Rose (F.faults files.old) (F.faults files.new) }
    ensures sink_fault { result ≡ Status.SinkFault → Rose (S.faults sink.old) (S.faults sink.new) }
    ensures files_never_fall { F.faults files.old ≤ F.faults files.new }
    ensures sink_never_falls { S.faults sink.old ≤ S.faults sink.new }
    ensures sure { IsTrue (F.never_fails files.old source.now) → IsTrue (F.never_fails files.old report.now)
        → result ≢ Status.FileFault }
{
    match replay(alloc, source, report, only, files, sink) {
        Ok(()) => Status::Done,
        Err(ReplayStop::Source(refusal)) => refuse(alloc, sink, &refusal),
        Err(ReplayStop::UnknownScheduler) => {
            tell(sink, b"source: unknown scheduler\n", Status::Source)
        }
        Err(ReplayStop::Log(refusal)) => refuse_report(alloc, sink, refusal),
        Err(ReplayStop::FileFault) => tell(sink, b"files: fault\n", Status::FileFault),
        Err(ReplayStop::SinkFault) => Status::SinkFault,
        Err(ReplayStop::NoMemory) => Status::NoMemory,
    }
}
