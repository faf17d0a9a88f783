//! A whole run of code, each actor on a thread of its own.

ghost use Rattle.std.specs.Prelude.{◌≡◌, map, length, IfOk};
ghost use Rattle.std.specs.List.{range_with_len};
ghost use Rattle.loft_code.specs.View.{automata_of};
ghost use Rattle.loft_engine.specs.CodeEngine.{code_of, scheduler_of, limits_of, machine_of, has_failed};
ghost use Rattle.loft_sense.specs.Machine.{Code as ByCode};
ghost use Rattle.loft_base.specs.Options.{IsInRange};
ghost use Rattle.loft_base.specs.Options.{HasWorkers};
ghost use Rattle.loft_actor.specs.Engines.{shown, new_engine, engine_after};
ghost use Rattle.loft_actor.specs.Runs.{IsRun};
ghost use Rattle.loft_history.specs.History.{replayed};
ghost use Rattle.loft_history.specs.Report.{schedulers};
ghost use Rattle.loft_course.specs.Running.{IsWholeRun};
ghost use Rattle.loft_world.specs.Replay.{stand_of};

use loft_actor::{Engines, run_all};
use loft_base::{Gate, NoMemory, RunOptions, SchedId, Sequence};
use loft_code::Code;
use loft_engine::CodeEngine;
use loft_history::legal_histories_are_made;
use loft_sense::Engine;
use loft_world::{FinalStates, Finals, Finished, Notes, World};
use std::alloc::Global;
use std::sync::Wait;
use std::thread::Threads;

/// The engines of the code before their first instant, in the order of its schedulers.
fn engines<'a>(
    alloc: Global,
    c: &'a Code,
    options: &RunOptions,
) -> Result<Engines<CodeEngine<'a>>, NoMemory>
    requires range { IsInRange options.now.limits }
    ensures { IfOk result (λ engines. map (λ e. shown (code_of e) (scheduler_of e) (limits_of e)
        (machine_of e) (has_failed e)) engines
        ≡ map (new_engine (ByCode (automata_of c.now)) options.now.limits)
        (range_with_len 0 (length c.now.heads.schedulers))) }
{
    let mut engines = Sequence::new(alloc);
    'schedulers: for k in 0..c.program().heads.schedulers.len() {
        let engine = CodeEngine::new(alloc, c, SchedId(k as u32), options.limits)?;
        engines.push(engine)?;
    }
    Ok(engines)
}

/// How the schedulers stand between two instants, in the order of their engines.
fn stands<E: Engine>(alloc: Global, engines: &[E]) -> Result<FinalStates, NoMemory>
    ensures { IfOk result (λ finals. finals ≡ map (λ e. stand_of (E.machine e)) engines.now) }
{
    let mut finals = Sequence::new(alloc);
    'engines: for engine in engines {
        let stand = engine.last(alloc)?;
        finals.push(stand)?;
    }
    Ok(finals)
}

/// The run by these engines. They may go to other threads.
fn run_engines<'a, R: Threads + Wait + Sync, G: Gate>(
    rt: &R,
    alloc: Global,
    c: &Code,
    options: &RunOptions,
    engines: Engines<CodeEngine<'a>>,
    gate: &G,
) -> Result<(World, Engines<CodeEngine<'a>>, Notes), NoMemory>
    requires workers { HasWorkers options.now }
    requires engines { map (λ e. shown (code_of e) (scheduler_of e) (limits_of e) (machine_of e)
        (has_failed e)) engines ≡ map (new_engine (ByCode (automata_of c.now)) options.now.limits)
        (range_with_len 0 (length c.now.heads.schedulers)) }
    ensures run { IfOk result (λ r. IsRun (ByCode (automata_of c.now)) options.now r.0) }
    ensures engines { IfOk result (λ r. map (λ e. shown (code_of e) (scheduler_of e) (limits_of e)
        (machine_of e) (has_failed e)) r.1 ≡ map (engine_after (ByCode (automata_of c.now))
        options.now.limits r.0.history) (range_with_len 0 (length c.now.heads.schedulers))) }
    ensures notes { IfOk result (λ r. r.2.of ≡ map (λ s. (replayed (ByCode (automata_of c.now))
        options.now.limits s r.0.history).notes) (schedulers (ByCode (automata_of c.now)))) }
{
    run_all(rt, alloc, c, options.limits, engines, options.workers, gate)
}

/// A whole run of valid code, within bounds and with workers that are in their ranges, each actor on a
/// thread of its own (`run_all` of `loft_actor`). It may wait. `NoMemory` comes where an allocation
/// fails.
pub fn run_whole<R: Threads + Wait + Sync, G: Gate>(
    rt: &R,
    alloc: Global,
    c: &Code,
    options: &RunOptions,
    gate: &G,
) -> Result<Finished, NoMemory>
    requires range { IsInRange options.now.limits }
    requires workers { HasWorkers options.now }
    ensures { IfOk result (λ run. IsWholeRun (ByCode (automata_of c.now)) options.now run) }
{
    legal_histories_are_made();
    let engines = engines(alloc, c, options)?;
    let (world, engines, notes) = run_engines(rt, alloc, c, options, engines, gate)?;
    let finals = stands(alloc, engines.as_slice())?;
    Ok(Finished {
        world,
        notes,
        finals: Finals { of: finals },
    })
}
