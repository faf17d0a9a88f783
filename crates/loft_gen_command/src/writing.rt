//! Writes what the command `gen` answers.

ghost use Rattle.std.specs.Prelude.{◌≡◌, ◌≤◌};
ghost use Rattle.loft_gen.specs.Generated.{generated};
ghost use Rattle.loft_generated_run.specs.Summary.{IsSummary};
ghost use Rattle.loft_gen_command.specs.Writes.{WritesOneOf};

use loft_base::{Gate, Sink, WriteError, write_lines};
use loft_gen::source_of;
use loft_generated_run::summary_of;
use std::alloc::Global;
use std::sync::Wait;
use std::thread::Threads;

/// Writes the source of a number (docs/GENERATED.md, "The source").
///
/// # Errors
///
/// `Sink` where the sink failed, and its count of faults rose. `NoMemory` where an allocation fails.
pub fn write_source<S: Sink>(alloc: Global, k: u32, sink: &mut S) -> Result<(), WriteError>
    requires some { 1 ≤ k }
    requires few { k ≤ 1000 }
    ensures { WritesOneOf (λ text. text ≡ generated k) result (S.written sink.old) (S.written sink.new)
        (S.faults sink.old) (S.faults sink.new) (S.room sink.old) (S.room sink.new)
        (S.by_lines sink.old) (S.by_lines sink.new) }
{
    let text = source_of(alloc, k)?;
    write_lines(text.as_slice(), sink)
}

/// Runs the source of a number, and writes the summary of the run (docs/GENERATED.md, "The summary").
/// Nothing is written before the run has ended.
///
/// # Errors
///
/// `Sink` where the sink failed, and its count of faults rose. `NoMemory` where an allocation fails.
pub fn write_summary<R: Threads + Wait + Sync, S: Sink, G: Gate>(
    rt: &R,
    alloc: Global,
    k: u32,
    sink: &mut S,
    gate: &G,
) -> Result<(), WriteError>
    requires some { 1 ≤ k }
    requires few { k ≤ 1000 }
    ensures { WritesOneOf (IsSummary k) result (S.written sink.old) (S.written sink.new)
        (S.faults sink.old) (S.faults sink.new) (S.room sink.old) (S.room sink.new)
        (S.by_lines sink.old) (S.by_lines sink.new) }
{
    let text = summary_of(rt, alloc, k, gate)?;
    write_lines(text.as_slice(), sink)
}
