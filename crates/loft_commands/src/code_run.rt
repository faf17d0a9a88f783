//! Runs code, and writes the report.

ghost use Rattle.std.specs.Prelude.{◌≤◌, IsErrOf, OnOk, OnErr, IsTrue};
ghost use Rattle.loft_base.specs.Outside.{Rose};
ghost use Rattle.loft_code.specs.View.{automata_of};
ghost use Rattle.loft_sense.specs.Machine.{Code as ByCode};
ghost use Rattle.loft_base.specs.Options.{AreInRange};
ghost use Rattle.loft_commands.specs.Written.{AppendsSome, IsPrefix, HasNoRoom};
ghost use Rattle.loft_commands.specs.Promise.{IsReport};
ghost use Rattle.loft_commands.specs.Options.{options_of};

use loft_base::{Gate, Limits, NoMemory, RunOptions, Sink, WriteError};
use loft_code::Code;
use loft_history::made_histories_are_legal;
use loft_log::{reports_of_worlds_are_of_histories, write_report};
use loft_refusal::Stopped;
use loft_run::run_whole;
use std::alloc::Global;
use std::mem::forget;
use std::sync::Wait;
use std::thread::Threads;

/// Why a run stops without its whole report.
#[derive(Clone, Copy, Debug, PartialEq, Eq)]
pub enum RunError {
    /// The sink failed; its count of faults rose.
    Sink,
    /// Out of memory for the run or for its report.
    NoMemory,
}

impl From<NoMemory> for RunError {
    ghost use Rattle.std.specs.Prelude.{◌≡◌};
    ghost use Rattle.loft_commands.specs.declared.code_run.RunError.TheVariants.{NoMemory as no_memory};

    ghost from_gives = { λ _ e. e ≡ no_memory };

    fn from(_error: NoMemory) -> RunError {
        RunError::NoMemory
    }
}

impl From<WriteError> for RunError {
    ghost use Rattle.std.specs.Prelude.{◌≡◌};
    ghost use Rattle.loft_commands.specs.RunStops.{run_error_of_write};

    ghost from_gives = { λ error e. e ≡ run_error_of_write error };

    fn from(error: WriteError) -> RunError {
        match error {
            WriteError::Sink => RunError::Sink,
            WriteError::NoMemory => RunError::NoMemory,
        }
    }
}

impl From<RunError> for Stopped {
    ghost use Rattle.std.specs.Prelude.{◌≡◌};
    ghost use Rattle.loft_commands.specs.RunStops.{stop_of_run};

    ghost from_gives = { λ e stopped. stopped ≡ stop_of_run e };

    fn from(error: RunError) -> Stopped {
        match error {
            RunError::Sink => Stopped::SinkFault,
            RunError::NoMemory => Stopped::NoMemory,
        }
    }
}

/// Runs valid code within these limits and with 1 to `MAX_WORKERS` workers, and writes the report
/// (docs/REPORT.md), each line by a `put` of its own. `Sink` comes where the sink failed,
/// and `NoMemory` where an allocation fails; then a prefix of a report was written.
pub fn run_code<R: Threads + Wait + Sync, S: Sink, G: Gate>(
    rt: &R,
    alloc: Global,
    c: &Code,
    l: Limits,
    workers: u32,
    sink: &mut S,
    gate: &G,
) -> Result<(), RunError>
    requires range { AreInRange (options_of l workers) }
    ensures report { OnOk result (AppendsSome (S.written sink.old) (S.written sink.new)
        (IsReport (ByCode (automata_of c.now)) (options_of l workers))) }
    ensures failed { OnErr result (AppendsSome (S.written sink.old) (S.written sink.new)
        (IsPrefix (IsReport (ByCode (automata_of c.now)) (options_of l workers)))) }
    ensures sink { IsErrOf result RunError.Sink → Rose (S.faults sink.old) (S.faults sink.new) }
    ensures never_falls { S.faults sink.old ≤ S.faults sink.new }
    ensures no_room { IsErrOf result RunError.Sink
        → HasNoRoom (S.room sink.old) (IsReport (ByCode (automata_of c.now)) (options_of l workers)) }
    ensures by_lines { IsTrue (S.by_lines sink.old) → IsTrue (S.by_lines sink.new) }
{
    reports_of_worlds_are_of_histories();
    made_histories_are_legal();
    let options = RunOptions { limits: l, workers };
    let run = run_whole(rt, alloc, c, &options, gate)?;
    write_report(
        alloc,
        &c.program().heads,
        &options,
        &run.world,
        &run.notes,
        &run.finals,
        sink,
    )?;
    // The program ends after it. To give back what was kept of the run, piece by piece, takes a third as long as to write a
    // long report.
    forget(run);
    Ok(())
}
