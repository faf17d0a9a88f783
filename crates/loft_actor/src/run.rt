//! A whole run: phases until nothing is left to do.

ghost use Rattle.std.specs.Prelude.{◌≡◌, ◌<◌, ℕ, map, length, IfOk, OnOk};
ghost use Rattle.std.specs.List.{range_with_len};
ghost use Rattle.loft_base.specs.Options.{HasWorkers};
ghost use Rattle.loft_code.specs.View.{automata_of};
ghost use Rattle.loft_sense.specs.Machine.{Code as ByCode};
ghost use Rattle.loft_history.specs.History.{replayed};
ghost use Rattle.loft_history.specs.Report.{schedulers};
ghost use Rattle.loft_actor.specs.Engines.{shown, new_engine, engine_after};
ghost use Rattle.loft_actor.specs.Members.{AtIndex, IsGiver, IsStationOf, IsWorkerOf, IsOutsiderOf};
ghost use Rattle.loft_actor.specs.Members.{members_of, names_of, IsOver};
ghost use Rattle.loft_actor.specs.Runs.{options_of, IsRun};
ghost use Rattle.loft_actor.specs.declared.look.Found.TheVariants.{Lone};

use crate::begin::{outsiders_of, stations_of, workers_of};
use crate::end::end_all;
use crate::look::{Found, look};
use loft_base::{Gate, Limits, NoMemory, Sequence};
use loft_baton::{Baton, Pass, closed_histories_are_legal};
use loft_code::Code;
use loft_phase::{Actors, go_alone, phase, turn_alone, work_alone};
use loft_sense::Engine;
use loft_world::{Notes, World};
use std::alloc::Global;
use std::sync::Wait;
use std::thread::Threads;

/// The engines of a run, in the order of their schedulers.
pub type Engines<E> = Sequence<E>;

/// One phase, of all actors or of the one that has something to do; or a stage of the schedulers alone,
/// where nobody else has anything to do; or one of the workers alone, where this look and the one
/// before found that nobody else has.
fn next_phase<R: Threads + Wait + Sync, E: Engine + Send, G: Gate>(
    rt: &R,
    alloc: Global,
    b: &Baton,
    c: &Code,
    l: Limits,
    before: Found,
    found: Found,
    a: &mut Actors<E>,
    g: &G,
) -> Result<(), NoMemory>
    requires stations { AtIndex (IsStationOf b.now c.now l) a.old.stations }
    requires workers { AtIndex (IsWorkerOf b.now c.now l.block) a.old.workers }
    requires outsiders { AtIndex (IsOutsiderOf b.now c.now) a.old.outsiders }
    requires lone { (k : ℕ) → found ≡ Lone k → k < length a.old.stations }
    ensures stations { OnOk result (AtIndex (IsStationOf b.now c.now l) a.new.stations) }
    ensures workers { OnOk result (AtIndex (IsWorkerOf b.now c.now l.block) a.new.workers) }
    ensures outsiders { OnOk result (AtIndex (IsOutsiderOf b.now c.now) a.new.outsiders) }
    ensures many { (length a.new.stations ≡ length a.old.stations)
        × (length a.new.workers ≡ length a.old.workers)
        × (length a.new.outsiders ≡ length a.old.outsiders) }
{
    let _bounds = l;
    match (before, found) {
        (_, Found::Lone(k)) => go_alone(rt, alloc, b, c, a, k, g),
        (_, Found::Turns) => turn_alone(rt, alloc, b, c, a, g),
        (Found::Jobs, Found::Jobs) => work_alone(rt, alloc, b, c, a, g),
        _ => phase(rt, alloc, b, c, a, g),
    }
}

/// Phases until nothing is left to do.
fn phases<R: Threads + Wait + Sync, E: Engine + Send, G: Gate>(
    rt: &R,
    alloc: Global,
    b: &Baton,
    c: &Code,
    l: Limits,
    giver: &mut Pass,
    a: &mut Actors<E>,
    g: &G,
) -> Result<(), NoMemory>
    requires giver { IsGiver b.now c.now giver.old.knows.given giver.old }
    requires stations { AtIndex (IsStationOf b.now c.now l) a.old.stations }
    requires workers { AtIndex (IsWorkerOf b.now c.now l.block) a.old.workers }
    requires outsiders { AtIndex (IsOutsiderOf b.now c.now) a.old.outsiders }
    ensures giver { OnOk result (IsGiver b.now c.now giver.old.knows.given giver.new) }
    ensures stations { OnOk result (AtIndex (IsStationOf b.now c.now l) a.new.stations) }
    ensures workers { OnOk result (AtIndex (IsWorkerOf b.now c.now l.block) a.new.workers) }
    ensures outsiders { OnOk result (AtIndex (IsOutsiderOf b.now c.now) a.new.outsiders) }
    ensures many { (length a.new.stations ≡ length a.old.stations)
        × (length a.new.workers ≡ length a.old.workers)
        × (length a.new.outsiders ≡ length a.old.outsiders) }
    ensures over { OnOk result (IsOver c.now giver.new.knows.seen a.new.stations a.new.workers
        a.new.outsiders) }
{
    let mut before = Found::Several;
    'phases: for _ in rt.forever() {
        let found = look(rt, b, c, giver, a);
        if let Found::Over = found {
            return Ok(());
        }
        next_phase(rt, alloc, b, c, l, before, found, a, g)?;
        before = found;
    }
    unreachable!()
}

/// Joins all passes, and takes the world out.
fn finish<R: Threads + Wait + Sync, E: Engine>(
    rt: &R,
    alloc: Global,
    b: Baton,
    c: &Code,
    l: Limits,
    workers: u32,
    giver: Pass,
    a: Actors<E>,
) -> Result<(World, Engines<E>, Notes), NoMemory>
    requires giver { IsGiver b c.now (names_of (members_of a.stations a.workers a.outsiders)) giver }
    requires stations { AtIndex (IsStationOf b c.now l) a.stations }
    requires workers { AtIndex (IsWorkerOf b c.now l.block) a.workers }
    requires outsiders { AtIndex (IsOutsiderOf b c.now) a.outsiders }
    requires many { (length a.stations ≡ length c.now.heads.schedulers) × (length a.workers ≡ workers)
        × (length a.outsiders ≡ length c.now.heads.clients) }
    requires over { IsOver c.now giver.knows.seen a.stations a.workers a.outsiders }
    ensures run { IfOk result (λ r. IsRun (ByCode (automata_of c.now)) (options_of l workers) r.0) }
    ensures engines { IfOk result (λ r. map (λ e. shown (E.program e) (E.scheduler e) (E.limits e)
        (E.machine e) (E.has_failed e)) r.1 ≡ map (engine_after (ByCode (automata_of c.now)) l r.0.history)
        (range_with_len 0 (length c.now.heads.schedulers))) }
    ensures notes { IfOk result (λ r. r.2.of ≡ map (λ s. (replayed (ByCode (automata_of c.now)) l s r.0.history).notes)
        (schedulers (ByCode (automata_of c.now)))) }
{
    let (_bounds, _count) = (l, workers);
    let (giver, engines, notes) = end_all(alloc, &b, giver, c, a)?;
    let world = b.close(rt, giver);
    let _length = world.length();
    closed_histories_are_legal();
    Ok((world, engines, notes))
}

/// A whole run of valid code, where each scheduler has an engine that has made no instant: phases until
/// nothing is left to do or the bounds are used up, each actor on a thread of its own. The history
/// of the world is legal and has ended, and the engines and the notes are as its replay leaves them.
/// It may wait. `NoMemory` comes where an allocation fails, of this call, of the world or of an engine.
pub fn run_all<R: Threads + Wait + Sync, E: Engine + Send, G: Gate>(
    rt: &R,
    alloc: Global,
    c: &Code,
    l: Limits,
    a: Engines<E>,
    workers: u32,
    g: &G,
) -> Result<(World, Engines<E>, Notes), NoMemory>
    requires workers { HasWorkers (options_of l workers) }
    requires engines { map (λ e. shown (E.program e) (E.scheduler e) (E.limits e) (E.machine e)
        (E.has_failed e)) a ≡ map (new_engine (ByCode (automata_of c.now)) l)
        (range_with_len 0 (length c.now.heads.schedulers)) }
    ensures run { IfOk result (λ r. IsRun (ByCode (automata_of c.now)) (options_of l workers) r.0) }
    ensures engines { IfOk result (λ r. map (λ e. shown (E.program e) (E.scheduler e) (E.limits e)
        (E.machine e) (E.has_failed e)) r.1 ≡ map (engine_after (ByCode (automata_of c.now)) l
        r.0.history) (range_with_len 0 (length c.now.heads.schedulers))) }
    ensures notes { IfOk result (λ r. r.2.of ≡ map (λ s. (replayed (ByCode (automata_of c.now)) l s
        r.0.history).notes) (schedulers (ByCode (automata_of c.now)))) }
{
    let world = World::make(alloc, c.heads())?;
    let (b, mut giver) = Baton::make(rt, alloc, c, world)?;
    let stations = stations_of(alloc, &b, &mut giver, c, l, a)?;
    let hands = workers_of(alloc, &b, &mut giver, c, l.block, workers)?;
    let outsiders = outsiders_of(alloc, &b, &mut giver, c)?;
    let mut actors = Actors {
        stations,
        workers: hands,
        outsiders,
    };
    phases(rt, alloc, &b, c, l, &mut giver, &mut actors, g)?;
    finish(rt, alloc, b, c, l, workers, giver, actors)
}
