//! Rounds: a phase of the actors, and beside it a turn of each caller.

ghost use Rattle.std.specs.Prelude.{◌≡◌, length, OnOk};
ghost use Rattle.std.specs.List.{All};
ghost use Rattle.loft_station.specs.Stations as station;
ghost use Rattle.loft_station.specs.Workers as worker;
ghost use Rattle.loft_station.specs.Outsiders as outsider;
ghost use Rattle.loft_phase.specs.Phases.{AtEachIndex, Stay, StationStays, WorkerStays, OutsiderStays};
ghost use Rattle.loft_actor.specs.Members.{AtIndex, IsGiver, IsStationOf, IsWorkerOf, IsOutsiderOf};
ghost use Rattle.loft_host.specs.Callers.{IsAtWork, GoesOn, IsCallerOf};

use crate::caller::Caller;
use crate::desk::{Desk, are_done, were_refused};
use loft_base::{Gate, Limits, NoMemory};
use loft_baton::{Baton, Pass};
use loft_code::Code;
use loft_phase::{Actors, phase};
use loft_sense::Engine;
use std::alloc::Global;
use std::sync::Wait;
use std::thread;
use std::thread::Threads;

/// The callers go on, each on a thread of its own.
fn callers_go_on<R: Threads + Wait + Sync, C: Caller + Send>(
    rt: &R,
    alloc: Global,
    b: &Baton,
    c: &Code,
    is_quiet: bool,
    desks: &mut [Desk<C>],
)
    requires at_work { All (λ d. IsAtWork b.now c.now d.pass) desks.old }
    ensures { AtEachIndex (λ d e. GoesOn b.now c.now d.pass e.pass) desks.old desks.new }
{
    let threads = desks.len().max(1);
    thread::for_each_mut(
        rt,
        desks,
        threads,
        &|_: usize, desk: &mut Desk<C>|
            requires at_work { IsAtWork b.now c.now desk.old.pass }
            ensures { GoesOn b.entry.now c.entry.now desk.old.pass desk.new.pass }
        { desk.go_on(rt, alloc, b, c, is_quiet) },
    );
}

/// A phase of the actors, and at the same time a turn of each caller.
fn all_go_on<R: Threads + Wait + Sync, E: Engine + Send, C: Caller + Send, G: Gate>(
    rt: &R,
    alloc: Global,
    b: &Baton,
    c: &Code,
    g: &G,
    a: &mut Actors<E>,
    is_quiet: bool,
    desks: &mut [Desk<C>],
) -> Result<(), NoMemory>
    requires stations { All (station.IsReady b.now c.now) a.old.stations }
    requires workers { All (worker.IsReady b.now c.now) a.old.workers }
    requires outsiders { All (outsider.IsReady b.now c.now) a.old.outsiders }
    requires callers { All (λ d. IsAtWork b.now c.now d.pass) desks.old }
    ensures stations { Stay (StationStays b.now c.now) a.old.stations a.new.stations }
    ensures workers { Stay (WorkerStays b.now c.now) a.old.workers a.new.workers }
    ensures outsiders { Stay (OutsiderStays b.now c.now) a.old.outsiders a.new.outsiders }
    ensures callers { AtEachIndex (λ d e. GoesOn b.now c.now d.pass e.pass) desks.old desks.new }
    ensures ready { OnOk result (All (station.IsReady b.now c.now) a.new.stations) }
    ensures free { OnOk result (All (worker.IsReady b.now c.now) a.new.workers) }
{
    let (done, ()) = thread::join_mut(
        rt,
        &mut ||
            requires stations { All (station.IsReady b.now c.now) a.now.stations }
            requires workers { All (worker.IsReady b.now c.now) a.now.workers }
            requires outsiders { All (outsider.IsReady b.now c.now) a.now.outsiders }
            ensures stations { Stay (StationStays b.entry.now c.entry.now) a.entry.now.stations a.exit.now.stations }
            ensures workers { Stay (WorkerStays b.entry.now c.entry.now) a.entry.now.workers a.exit.now.workers }
            ensures outsiders { Stay (OutsiderStays b.entry.now c.entry.now) a.entry.now.outsiders a.exit.now.outsiders }
            ensures ready { OnOk result (All (station.IsReady b.entry.now c.entry.now) a.exit.now.stations) }
            ensures free { OnOk result (All (worker.IsReady b.entry.now c.entry.now) a.exit.now.workers) }
        { phase(rt, alloc, b, c, a, g) },
        &mut ||
            requires { All (λ d. IsAtWork b.now c.now d.pass) desks.now }
            ensures { AtEachIndex (λ d e. GoesOn b.entry.now c.entry.now d.pass e.pass) desks.entry.now desks.exit.now }
        { callers_go_on(rt, alloc, b, c, is_quiet, desks) },
    );
    done
}

/// One round. Out of memory of an actor or a caller, the answer is `NoMemory`.
fn round<R: Threads + Wait + Sync, E: Engine + Send, C: Caller + Send, G: Gate>(
    rt: &R,
    alloc: Global,
    b: &Baton,
    c: &Code,
    l: Limits,
    g: &G,
    a: &mut Actors<E>,
    is_quiet: bool,
    desks: &mut [Desk<C>],
) -> Result<(), NoMemory>
    requires stations { AtIndex (IsStationOf b.now c.now l) a.old.stations }
    requires workers { AtIndex (IsWorkerOf b.now c.now l.block) a.old.workers }
    requires outsiders { AtIndex (IsOutsiderOf b.now c.now) a.old.outsiders }
    requires callers { AtIndex (λ i d. IsCallerOf b.now c.now i d.pass) desks.old }
    ensures stations { OnOk result (AtIndex (IsStationOf b.now c.now l) a.new.stations) }
    ensures workers { OnOk result (AtIndex (IsWorkerOf b.now c.now l.block) a.new.workers) }
    ensures outsiders { AtIndex (IsOutsiderOf b.now c.now) a.new.outsiders }
    ensures callers { AtIndex (λ i d. IsCallerOf b.now c.now i d.pass) desks.new }
    ensures many { (length a.new.stations ≡ length a.old.stations)
        × (length a.new.workers ≡ length a.old.workers)
        × (length a.new.outsiders ≡ length a.old.outsiders) }
{
    let _bounds = l;
    all_go_on(rt, alloc, b, c, g, a, is_quiet, desks)?;
    if were_refused(desks) {
        return Err(NoMemory);
    }
    Ok(())
}

/// How many entries the history has. It waits for the world.
fn length_of<R: Wait>(rt: &R, b: &Baton, c: &Code, giver: &mut Pass) -> u64
    requires giver { IsGiver b.now c.now giver.old.knows.given giver.old }
    ensures giver { IsGiver b.now c.now giver.old.knows.given giver.new }
{
    let _code = c;
    let mut held = b.hold(rt, giver);
    let length = held.world().length();
    b.release(rt, held, giver);
    length
}

/// Rounds until each caller has had its last turn, and a round adds nothing.
pub(crate) fn rounds<R: Threads + Wait + Sync, E: Engine + Send, C: Caller + Send, G: Gate>(
    rt: &R,
    alloc: Global,
    b: &Baton,
    c: &Code,
    l: Limits,
    g: &G,
    giver: &mut Pass,
    a: &mut Actors<E>,
    desks: &mut [Desk<C>],
) -> Result<(), NoMemory>
    requires giver { IsGiver b.now c.now giver.old.knows.given giver.old }
    requires stations { AtIndex (IsStationOf b.now c.now l) a.old.stations }
    requires workers { AtIndex (IsWorkerOf b.now c.now l.block) a.old.workers }
    requires outsiders { AtIndex (IsOutsiderOf b.now c.now) a.old.outsiders }
    requires callers { AtIndex (λ i d. IsCallerOf b.now c.now i d.pass) desks.old }
    ensures giver { OnOk result (IsGiver b.now c.now giver.old.knows.given giver.new) }
    ensures stations { OnOk result (AtIndex (IsStationOf b.now c.now l) a.new.stations) }
    ensures workers { OnOk result (AtIndex (IsWorkerOf b.now c.now l.block) a.new.workers) }
    ensures outsiders { OnOk result (AtIndex (IsOutsiderOf b.now c.now) a.new.outsiders) }
    ensures callers { OnOk result (AtIndex (λ i d. IsCallerOf b.now c.now i d.pass) desks.new) }
    ensures many { (length a.new.stations ≡ length a.old.stations)
        × (length a.new.workers ≡ length a.old.workers)
        × (length a.new.outsiders ≡ length a.old.outsiders) }
{
    let mut length = 0;
    let mut is_quiet = false;
    'rounds: for _ in rt.forever() {
        round(rt, alloc, b, c, l, g, a, is_quiet, desks)?;
        let now = length_of(rt, b, c, giver);
        is_quiet = now == length;
        if is_quiet && are_done(desks) {
            return Ok(());
        }
        length = now;
    }
    unreachable!()
}
