//! A run of a generated source.

ghost use Rattle.std.specs.Prelude.{◌≤◌, IfOk};
ghost use Rattle.loft_world.specs.Replay.{IsReplayOf};
ghost use Rattle.loft_generated_run.specs.Summary.{prog_of, run_options, IsRunOf, IsSummary};

use crate::program::generated_program;
use loft_base::{Gate, Limits, NoMemory, RunOptions};
use loft_compile::compile;
use loft_history::made_histories_are_legal;
use loft_run::run_whole;
use loft_soundness::programs_that_run_alike_agree;
use loft_summary::summary_text;
use loft_translation::compiled_code_has_the_same_histories;
use loft_world::Finished;
use std::alloc::Global;
use std::sync::Wait;
use std::thread::Threads;

/// Runs the source of a number with the options of docs/GENERATED.md, "The run": its world, the notes
/// of its instants and the last states of its schedulers.
///
/// # Errors
///
/// Out of memory for the source, its code or the run.
pub fn run_generated<R: Threads + Wait + Sync, G: Gate>(
    rt: &R,
    alloc: Global,
    k: u32,
    gate: &G,
) -> Result<Finished, NoMemory>
    requires some { 1 ≤ k }
    requires few { k ≤ 1000 }
    ensures run { IfOk result (λ run. IsRunOf k run.world.history) }
    ensures replay { IfOk result (λ run. IsReplayOf (prog_of k) run_options.limits run.world.history run.notes.of run.finals.of) }
{
    made_histories_are_legal();
    compiled_code_has_the_same_histories();
    programs_that_run_alike_agree();
    let placed = generated_program(alloc, k)?;
    placed.program();
    let code = compile(alloc, &placed)?;
    let options = RunOptions {
        limits: Limits {
            instants: 2_000,
            budget: 10_000,
            block: 1_000_000,
        },
        workers: 2,
    };
    run_whole(rt, alloc, &code, &options, gate)
}

/// Runs the source of a number, and tells the summary of the run (docs/GENERATED.md, "The summary").
///
/// # Errors
///
/// Out of memory for the run or the text.
pub fn summary_of<R: Threads + Wait + Sync, G: Gate>(
    rt: &R,
    alloc: Global,
    k: u32,
    gate: &G,
) -> Result<Vec<u8>, NoMemory>
    requires some { 1 ≤ k }
    requires few { k ≤ 1000 }
    ensures { IfOk result (λ text. IsSummary k text.items) }
{
    let run = run_generated(rt, alloc, k, gate)?;
    summary_text(alloc, k, &run.notes, &run.finals)
}
