//! A phase in which one scheduler alone goes on.

ghost use Rattle.std.specs.Prelude.{◌≡◌, ◌<◌, length, slice_index_or, OnOk};
ghost use Rattle.std.specs.List.{All};
ghost use Rattle.loft_station.specs.Stations.{IsReady, StationView, WentOn};
ghost use Rattle.loft_phase.specs.Phases.{Stay, StationStays, GoesOnAt};

use crate::phases::Actors;
use loft_base::{Gate, NoMemory};
use loft_baton::Baton;
use loft_code::Code;
use loft_sense::Engine;
use loft_station::Station;
use std::alloc::Global;
use std::sync::Wait;
use std::thread::Threads;

/// The scheduler at this index goes on, on the thread that calls.
fn station_goes_on<R: Threads + Wait + Sync, E: Engine, G: Gate>(
    rt: &R,
    alloc: Global,
    b: &Baton,
    c: &Code,
    g: &G,
    stations: &mut [Station<E>],
    k: usize,
)
    requires ready { All (IsReady b.now c.now) stations.old }
    requires inside { k < length stations.old }
    ensures { GoesOnAt (WentOn b.now c.now) k stations.old stations.new }
{
    stations[k].go_on(rt, alloc, b, c, g);
}

/// Whether memory was refused to the scheduler at this index.
fn is_refused_at<E: Engine>(stations: &[Station<E>], k: usize) -> bool
    requires inside { k < length stations.now }
    ensures { (d : StationView) → result ≡ (slice_index_or stations.now k d).refused }
{
    stations[k].is_refused()
}

/// The scheduler at this index goes on, and the answer says whether memory was refused to it.
fn goes_on_alone<R: Threads + Wait + Sync, E: Engine, G: Gate>(
    rt: &R,
    alloc: Global,
    b: &Baton,
    c: &Code,
    g: &G,
    stations: &mut [Station<E>],
    k: usize,
) -> Result<(), NoMemory>
    requires ready { All (IsReady b.now c.now) stations.old }
    requires inside { k < length stations.old }
    ensures stations { Stay (StationStays b.now c.now) stations.old stations.new }
    ensures ready { OnOk result (All (IsReady b.now c.now) stations.new) }
{
    station_goes_on(rt, alloc, b, c, g, stations, k);
    if is_refused_at(stations, k) {
        return Err(NoMemory);
    }
    Ok(())
}

/// A phase of one scheduler, where nobody else has anything to do: it makes at most 32 turns, on the
/// thread that calls. It may wait. Out of memory, it still has the entries that it has to make, and
/// an idle pass.
pub fn go_alone<R: Threads + Wait + Sync, E: Engine, G: Gate>(
    rt: &R,
    alloc: Global,
    b: &Baton,
    c: &Code,
    a: &mut Actors<E>,
    k: usize,
    g: &G,
) -> Result<(), NoMemory>
    requires stations { All (IsReady b.now c.now) a.old.stations }
    requires inside { k < length a.old.stations }
    ensures stations { Stay (StationStays b.now c.now) a.old.stations a.new.stations }
    ensures workers { a.new.workers ≡ a.old.workers }
    ensures outsiders { a.new.outsiders ≡ a.old.outsiders }
    ensures ready { OnOk result (All (IsReady b.now c.now) a.new.stations) }
{
    goes_on_alone(rt, alloc, b, c, g, a.stations.as_mut_slice(), k)
}
