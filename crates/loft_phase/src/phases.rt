//! One phase of all actors, each on a thread of its own.

ghost use Rattle.std.specs.Prelude.{◌≡◌, IsTrue, false, OnOk};
ghost use Rattle.std.specs.List.{All};
ghost use Rattle.loft_station.specs.Stations as station;
ghost use Rattle.loft_station.specs.Workers as worker;
ghost use Rattle.loft_station.specs.Outsiders as outsider;
ghost use Rattle.loft_phase.specs.Phases.{AtEachIndex, Stay, StationStays, WorkerStays, OutsiderStays};

use loft_base::{Gate, NoMemory, Sequence};
use loft_baton::Baton;
use loft_code::Code;
use loft_sense::Engine;
use loft_station::{Outsider, Station, Worker};
use std::alloc::Global;
use std::sync::Wait;
use std::thread;
use std::thread::Threads;

/// All actors of a run, in the order of their numbers.
#[derive(Drop)]
pub struct Actors<E: Engine> {
    pub stations: Sequence<Station<E>>,
    pub workers: Sequence<Worker>,
    pub outsiders: Sequence<Outsider>,
}

/// The schedulers go on, each on a thread of its own.
fn stations_go_on<R: Threads + Wait + Sync, E: Engine + Send, G: Gate>(
    rt: &R,
    alloc: Global,
    b: &Baton,
    c: &Code,
    g: &G,
    stations: &mut [Station<E>],
)
    requires ready { All (station.IsReady b.now c.now) stations.old }
    ensures { AtEachIndex (station.WentOn b.now c.now) stations.old stations.new }
{
    let threads = stations.len().max(1);
    thread::for_each_mut(
        rt,
        stations,
        threads,
        &|_: usize, actor: &mut Station<E>|
            requires ready { station.IsReady b.now c.now actor.old }
            ensures { station.WentOn b.entry.now c.entry.now actor.old actor.new }
        { actor.go_on(rt, alloc, b, c, g) },
    );
}

/// The workers go on, each on a thread of its own.
fn workers_go_on<R: Threads + Wait + Sync, G: Gate>(
    rt: &R,
    alloc: Global,
    b: &Baton,
    c: &Code,
    g: &G,
    workers: &mut [Worker],
)
    requires ready { All (worker.IsReady b.now c.now) workers.old }
    ensures { AtEachIndex (worker.WentOn b.now c.now) workers.old workers.new }
{
    let threads = workers.len().max(1);
    thread::for_each_mut(
        rt,
        workers,
        threads,
        &|_: usize, actor: &mut Worker|
            requires ready { worker.IsReady b.now c.now actor.old }
            ensures { worker.WentOn b.entry.now c.entry.now actor.old actor.new }
        { actor.go_on(rt, alloc, b, c, g) },
    );
}

/// The clients go on, each on a thread of its own.
fn outsiders_go_on<R: Threads + Wait + Sync>(
    rt: &R,
    alloc: Global,
    b: &Baton,
    c: &Code,
    outsiders: &mut [Outsider],
)
    requires ready { All (outsider.IsReady b.now c.now) outsiders.old }
    ensures { AtEachIndex (outsider.WentOn b.now c.now) outsiders.old outsiders.new }
{
    let threads = outsiders.len().max(1);
    thread::for_each_mut(
        rt,
        outsiders,
        threads,
        &|_: usize, actor: &mut Outsider|
            requires ready { outsider.IsReady b.now c.now actor.old }
            ensures { outsider.WentOn b.entry.now c.entry.now actor.old actor.new }
        { actor.go_on(rt, alloc, b, c) },
    );
}

/// The workers and the clients go on. Where there are no clients, no thread is started for them.
fn others_go_on<R: Threads + Wait + Sync, G: Gate>(
    rt: &R,
    alloc: Global,
    b: &Baton,
    c: &Code,
    g: &G,
    workers: &mut [Worker],
    outsiders: &mut [Outsider],
)
    requires workers { All (worker.IsReady b.now c.now) workers.old }
    requires outsiders { All (outsider.IsReady b.now c.now) outsiders.old }
    ensures workers { AtEachIndex (worker.WentOn b.now c.now) workers.old workers.new }
    ensures outsiders { AtEachIndex (outsider.WentOn b.now c.now) outsiders.old outsiders.new }
{
    if outsiders.is_empty() {
        workers_go_on(rt, alloc, b, c, g, workers);
        return;
    }
    thread::join_mut(
        rt,
        &mut ||
            requires { All (worker.IsReady b.now c.now) workers.now }
            ensures { AtEachIndex (worker.WentOn b.entry.now c.entry.now) workers.entry.now workers.exit.now }
        { workers_go_on(rt, alloc, b, c, g, workers) },
        &mut ||
            requires { All (outsider.IsReady b.now c.now) outsiders.now }
            ensures { AtEachIndex (outsider.WentOn b.entry.now c.entry.now) outsiders.entry.now outsiders.exit.now }
        { outsiders_go_on(rt, alloc, b, c, outsiders) },
    );
}

/// All actors go on.
fn all_go_on<R: Threads + Wait + Sync, E: Engine + Send, G: Gate>(
    rt: &R,
    alloc: Global,
    b: &Baton,
    c: &Code,
    g: &G,
    stations: &mut [Station<E>],
    workers: &mut [Worker],
    outsiders: &mut [Outsider],
)
    requires stations { All (station.IsReady b.now c.now) stations.old }
    requires workers { All (worker.IsReady b.now c.now) workers.old }
    requires outsiders { All (outsider.IsReady b.now c.now) outsiders.old }
    ensures stations { AtEachIndex (station.WentOn b.now c.now) stations.old stations.new }
    ensures workers { AtEachIndex (worker.WentOn b.now c.now) workers.old workers.new }
    ensures outsiders { AtEachIndex (outsider.WentOn b.now c.now) outsiders.old outsiders.new }
{
    thread::join_mut(
        rt,
        &mut ||
            requires { All (station.IsReady b.now c.now) stations.now }
            ensures { AtEachIndex (station.WentOn b.entry.now c.entry.now) stations.entry.now stations.exit.now }
        { stations_go_on(rt, alloc, b, c, g, stations) },
        &mut ||
            requires workers { All (worker.IsReady b.now c.now) workers.now }
            requires outsiders { All (outsider.IsReady b.now c.now) outsiders.now }
            ensures workers { AtEachIndex (worker.WentOn b.entry.now c.entry.now) workers.entry.now workers.exit.now }
            ensures outsiders { AtEachIndex (outsider.WentOn b.entry.now c.entry.now) outsiders.entry.now outsiders.exit.now }
        { others_go_on(rt, alloc, b, c, g, workers, outsiders) },
    );
}

/// Whether memory was refused to none of these schedulers.
pub(crate) fn stations_went_on<E: Engine>(stations: &[Station<E>]) -> bool
    ensures { IsTrue result → All (λ v. v.refused ≡ false) stations.now }
{
    stations.iter().all(|station| !station.is_refused())
}

/// Whether memory was refused to none of these workers.
pub(crate) fn workers_went_on(workers: &[Worker]) -> bool
    ensures { IsTrue result → All (λ v. v.refused ≡ false) workers.now }
{
    workers.iter().all(|worker| !worker.refused)
}

/// Whether memory was refused to none of these clients.
fn outsiders_went_on(outsiders: &[Outsider]) -> bool
    ensures { IsTrue result → All (λ v. v.refused ≡ false) outsiders.now }
{
    outsiders.iter().all(|outsider| !outsider.refused)
}

/// One phase: each actor makes at most 32 turns, on a thread of its own. It may wait. Out of memory,
/// each actor still has the entries that it has to make, and an idle pass.
pub fn phase<R: Threads + Wait + Sync, E: Engine + Send, G: Gate>(
    rt: &R,
    alloc: Global,
    b: &Baton,
    c: &Code,
    a: &mut Actors<E>,
    g: &G,
) -> Result<(), NoMemory>
    requires stations { All (station.IsReady b.now c.now) a.old.stations }
    requires workers { All (worker.IsReady b.now c.now) a.old.workers }
    requires outsiders { All (outsider.IsReady b.now c.now) a.old.outsiders }
    ensures stations { Stay (StationStays b.now c.now) a.old.stations a.new.stations }
    ensures workers { Stay (WorkerStays b.now c.now) a.old.workers a.new.workers }
    ensures outsiders { Stay (OutsiderStays b.now c.now) a.old.outsiders a.new.outsiders }
    ensures ready { OnOk result (All (station.IsReady b.now c.now) a.new.stations) }
    ensures free { OnOk result (All (worker.IsReady b.now c.now) a.new.workers) }
    ensures turns { OnOk result
        (AtEachIndex (station.HasMade 32 c.now) a.old.stations a.new.stations) }
    ensures jobs { OnOk result (AtEachIndex (worker.HasWorked 32) a.old.workers a.new.workers) }
    ensures orders { OnOk result
        (AtEachIndex (outsider.HasGiven 32 c.now) a.old.outsiders a.new.outsiders) }
{
    all_go_on(
        rt,
        alloc,
        b,
        c,
        g,
        a.stations.as_mut_slice(),
        a.workers.as_mut_slice(),
        a.outsiders.as_mut_slice(),
    );
    if stations_went_on(a.stations.as_slice())
        && workers_went_on(a.workers.as_slice())
        && outsiders_went_on(a.outsiders.as_slice())
    {
        Ok(())
    } else {
        Err(NoMemory)
    }
}
