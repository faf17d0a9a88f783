//! Lines that are written in place of an answer, each with its status.

ghost use Rattle.std.specs.Prelude.{◌≡◌, ◌≢◌, ◌<◌, ◌⊎◌, ◌++◌, ◌∷◌, [], length, true};
ghost use Rattle.loft_base.specs.Outside.{is_line};
ghost use Rattle.loft_refusal.specs.Refusals.{line_of};
ghost use Rattle.loft_replay_command.specs.Refusals.{log_line};
ghost use Rattle.loft_top.specs.Telling.{TellsTo};

use crate::status::{Status, status_of};
use loft_base::{Sink, write_lines};
use loft_refusal::Refusal;
use loft_replay_command::LogRefusal;
use std::alloc::Global;

/// Writes a line, whose status is the answer unless the sink fails.
pub(crate) fn tell<S: Sink>(sink: &mut S, line: &[u8], status: Status) -> Status
    requires some { 0 < length line.now }
    requires line { is_line line.now ≡ true }
    requires sink { status ≢ Status.SinkFault }
    requires memory { status ≢ Status.NoMemory }
    ensures told { result ≡ status ⊎ result ≡ Status.SinkFault }
    ensures tells { TellsTo S.written S.faults S.room S.by_lines sink.old sink.new status result line.now }
{
    match sink.put(line) {
        Ok(()) => status,
        Err(_) => Status::SinkFault,
    }
}

/// Writes the line of a refusal.
pub(crate) fn refuse<S: Sink>(alloc: Global, sink: &mut S, refusal: &Refusal) -> Status
    ensures { TellsTo S.written S.faults S.room S.by_lines sink.old sink.new Status.Source result
        (line_of refusal.now ++ 10 ∷ []) }
{
    match refusal.line(alloc) {
        Ok(line) => status_of(write_lines(line.as_slice(), sink), Status::Source),
        Err(_) => Status::NoMemory,
    }
}

/// Writes the line of a report that is refused.
pub(crate) fn refuse_report<S: Sink>(alloc: Global, sink: &mut S, refusal: LogRefusal) -> Status
    ensures { TellsTo S.written S.faults S.room S.by_lines sink.old sink.new Status.Log result
        (log_line refusal ++ 10 ∷ []) }
{
    match refusal.line(alloc) {
        Ok(line) => status_of(write_lines(line.as_bytes(), sink), Status::Log),
        Err(_) => Status::NoMemory,
    }
}
