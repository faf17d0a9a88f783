//! What the program does with the source of a number.

ghost use Rattle.std.specs.Prelude.{◌≡◌, ◌≢◌, ◌≤◌, ℕ, Some, []};
ghost use Rattle.loft_base.specs.Outside.{Rose};
ghost use Rattle.loft_arguments.specs.Command.{Gen, GenRun};
ghost use Rattle.loft_top.specs.Answer.{Answers};

use crate::status::{Status, status_of};
use loft_base::{Gate, Sink};
use loft_gen_command::{write_source, write_summary};
use std::alloc::Global;
use std::sync::Wait;
use std::thread::Threads;

/// Writes the source of a number.
pub(crate) fn generate<S: Sink>(alloc: Global, number: u32, sink: &mut S) -> Status
    requires some { 1 ≤ number }
    requires few { number ≤ 1000 }
    ensures answers { (before after : ℕ) → Answers (Gen number) (Some []) result
        (S.written sink.old) (S.written sink.new) before after
        (S.room sink.old) (S.by_lines sink.old) (S.by_lines sink.new) }
    ensures no_file { result ≢ Status.FileFault }
    ensures sink_fault { result ≡ Status.SinkFault → Rose (S.faults sink.old) (S.faults sink.new) }
    ensures never_falls { S.faults sink.old ≤ S.faults sink.new }
{
    status_of(write_source(alloc, number, sink), Status::Done)
}

/// Runs the source of a number, and writes the summary of the run.
pub(crate) fn summarize<R: Threads + Wait + Sync, S: Sink, G: Gate>(
    rt: &R,
    alloc: Global,
    number: u32,
    sink: &mut S,
    gate: &G,
) -> Status
    requires some { 1 ≤ number }
    requires few { number ≤ 1000 }
    ensures answers { (before after : ℕ) → Answers (GenRun number) (Some []) result
        (S.written sink.old) (S.written sink.new) before after
        (S.room sink.old) (S.by_lines sink.old) (S.by_lines sink.new) }
    ensures no_file { result ≢ Status.FileFault }
    ensures sink_fault { result ≡ Status.SinkFault → Rose (S.faults sink.old) (S.faults sink.new) }
    ensures never_falls { S.faults sink.old ≤ S.faults sink.new }
{
    status_of(write_summary(rt, alloc, number, sink, gate), Status::Done)
}
