//! A stage in which the schedulers alone go on.

ghost use Rattle.std.specs.Prelude.{◌≡◌, OnOk};
ghost use Rattle.std.specs.List.{All};
ghost use Rattle.loft_station.specs.Stations.{IsReady};
ghost use Rattle.loft_phase.specs.Phases.{AtEachIndex, Stay, StationStays, TurnedOn};

use crate::phases::{Actors, stations_went_on};
use loft_base::{Gate, NoMemory};
use loft_baton::Baton;
use loft_code::Code;
use loft_sense::Engine;
use loft_station::Station;
use std::alloc::Global;
use std::sync::Wait;
use std::thread;
use std::thread::Threads;

/// How many shares of a phase a scheduler makes in a row: at most 1,024 turns.
const SHARES: u32 = 32;

/// A scheduler makes its shares, one after the other, as long as memory isn't refused to it. After each
/// of them it looks whether something waits for anybody: then a worker has something to do, or perhaps a
/// scheduler that had no turn to make, and it makes no more.
fn turns_on<R: Threads + Wait + Sync, E: Engine, G: Gate>(
    rt: &R,
    alloc: Global,
    b: &Baton,
    c: &Code,
    g: &G,
    station: &mut Station<E>,
)
    requires ready { IsReady b.now c.now station.old }
    ensures { TurnedOn b.now c.now station.old station.new }
{
    for share in 0..SHARES {
        station.go_on(rt, alloc, b, c, g);
        if station.is_refused() || !station.finds_quiet(rt, b, c) {
            return;
        }
    }
}

/// The schedulers make their shares, each on a thread of its own.
fn stations_turn_on<R: Threads + Wait + Sync, E: Engine + Send, G: Gate>(
    rt: &R,
    alloc: Global,
    b: &Baton,
    c: &Code,
    g: &G,
    stations: &mut [Station<E>],
)
    requires ready { All (IsReady b.now c.now) stations.old }
    ensures { AtEachIndex (TurnedOn b.now c.now) stations.old stations.new }
{
    let threads = stations.len().max(1);
    thread::for_each_mut(
        rt,
        stations,
        threads,
        &|_: usize, actor: &mut Station<E>|
            requires ready { IsReady b.now c.now actor.old }
            ensures { TurnedOn b.entry.now c.entry.now actor.old actor.new }
        { turns_on(rt, alloc, b, c, g, actor) },
    );
}

/// A stage of the schedulers, each on a thread of its own, where nobody else has anything to do: each
/// makes as many turns as there are to make, at most 1,024, as long as nothing waits for anybody. It may
/// wait. Out of memory, each scheduler still has the entries that it has to make, and an idle pass.
pub fn turn_alone<R: Threads + Wait + Sync, E: Engine + Send, G: Gate>(
    rt: &R,
    alloc: Global,
    b: &Baton,
    c: &Code,
    a: &mut Actors<E>,
    g: &G,
) -> Result<(), NoMemory>
    requires stations { All (IsReady b.now c.now) a.old.stations }
    ensures stations { Stay (StationStays b.now c.now) a.old.stations a.new.stations }
    ensures workers { a.new.workers ≡ a.old.workers }
    ensures outsiders { a.new.outsiders ≡ a.old.outsiders }
    ensures ready { OnOk result (All (IsReady b.now c.now) a.new.stations) }
{
    stations_turn_on(rt, alloc, b, c, g, a.stations.as_mut_slice());
    if stations_went_on(a.stations.as_slice()) {
        Ok(())
    } else {
        Err(NoMemory)
    }
}
