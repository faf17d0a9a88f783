//! A stage in which the workers alone go on.

ghost use Rattle.std.specs.Prelude.{◌≡◌, OnOk};
ghost use Rattle.std.specs.List.{All};
ghost use Rattle.loft_station.specs.Workers.{IsReady};
ghost use Rattle.loft_phase.specs.Phases.{AtEachIndex, Stay, WorkerStays, WorkedOn};

use crate::phases::{Actors, workers_went_on};
use loft_base::{Gate, NoMemory};
use loft_baton::Baton;
use loft_code::Code;
use loft_sense::Engine;
use loft_station::Worker;
use std::alloc::Global;
use std::sync::Wait;
use std::thread;
use std::thread::Threads;

/// How many shares of a phase a worker makes in a row: at most 1,024 jobs.
const SHARES: u32 = 32;

/// How many looks of one share that find the world taken make a crowd: as many as a share has turns.
const CROWD: u64 = 32;

/// Whether a pass that had waited so often found a crowd at the world since.
fn is_crowded(before: u64, worker: &Worker) -> bool {
    worker.seat.pass.waits().saturating_sub(before) >= CROWD
}

/// A worker makes its shares, one after the other, as long as memory isn't refused to it. Each but the
/// first one makes no more where it found a crowd in two shares in a row: then jobs are so short that
/// the workers wait for one another.
fn works_on<R: Threads + Wait + Sync, G: Gate>(
    rt: &R,
    alloc: Global,
    b: &Baton,
    c: &Code,
    g: &G,
    index: usize,
    worker: &mut Worker,
)
    requires ready { IsReady b.now c.now worker.old }
    ensures { WorkedOn b.now c.now worker.old worker.new }
{
    let mut crowded = false;
    for share in 0..SHARES {
        let before = worker.seat.pass.waits();
        worker.go_on(rt, alloc, b, c, g);
        let was_crowded = crowded;
        crowded = is_crowded(before, worker);
        if worker.refused || (index > 0 && was_crowded && crowded) {
            return;
        }
    }
}

/// The workers make their shares, each on a thread of its own.
fn workers_work_on<R: Threads + Wait + Sync, G: Gate>(
    rt: &R,
    alloc: Global,
    b: &Baton,
    c: &Code,
    g: &G,
    workers: &mut [Worker],
)
    requires ready { All (IsReady b.now c.now) workers.old }
    ensures { AtEachIndex (WorkedOn b.now c.now) workers.old workers.new }
{
    let threads = workers.len().max(1);
    thread::for_each_mut(
        rt,
        workers,
        threads,
        &|index: usize, actor: &mut Worker|
            requires ready { IsReady b.now c.now actor.old }
            ensures { WorkedOn b.entry.now c.entry.now actor.old actor.new }
        { works_on(rt, alloc, b, c, g, index, actor) },
    );
}

/// A stage of the workers, each on a thread of its own, where nobody else has anything to do: each
/// makes as many turns as there are jobs, at most 1,024. It may wait. Out of memory, each worker still
/// has the entries that it has to make, and an idle pass.
pub fn work_alone<R: Threads + Wait + Sync, E: Engine, G: Gate>(
    rt: &R,
    alloc: Global,
    b: &Baton,
    c: &Code,
    a: &mut Actors<E>,
    g: &G,
) -> Result<(), NoMemory>
    requires workers { All (IsReady b.now c.now) a.old.workers }
    ensures stations { a.new.stations ≡ a.old.stations }
    ensures workers { Stay (WorkerStays b.now c.now) a.old.workers a.new.workers }
    ensures outsiders { a.new.outsiders ≡ a.old.outsiders }
    ensures free { OnOk result (All (IsReady b.now c.now) a.new.workers) }
{
    workers_work_on(rt, alloc, b, c, g, a.workers.as_mut_slice());
    if workers_went_on(a.workers.as_slice()) {
        Ok(())
    } else {
        Err(NoMemory)
    }
}
