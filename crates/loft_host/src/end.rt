//! The passes of all actors and callers come together.

ghost use Rattle.std.specs.Prelude.{◌≡◌, ◌∷◌, ◌++◌, [], map, IfOk};
ghost use Rattle.std.specs.List.{All};
ghost use Rattle.loft_baton.specs.Knowing.{IsIdle, joined};
ghost use Rattle.loft_station.specs.Stations.{IsReady as IsReadyStation};
ghost use Rattle.loft_station.specs.Workers.{IsReady as IsReadyWorker};
ghost use Rattle.loft_station.specs.Outsiders.{IsReady as IsReadyOutsider};
ghost use Rattle.loft_host.specs.Callers.{IsAtWork};
ghost use Rattle.loft_host.specs.Gathered.{IsGathered, station_own, worker_own, outsider_own, caller_own};

use crate::caller::Caller;
use crate::desk::Desk;
use loft_base::{NoMemory, Sequence};
use loft_baton::{Baton, Pass};
use loft_code::Code;
use loft_sense::Engine;
use loft_station::{Outsider, Station, Worker};
use loft_world::{NoteList, NoteLists, Notes};
use std::alloc::Global;

/// Joins the pass of a scheduler.
fn end_station<E: Engine>(b: &Baton, giver: Pass, c: &Code, station: Station<E>) -> (Pass, NoteList)
    requires giver { (giver.baton ≡ b.now) × IsIdle giver.knows }
    requires ready { IsReadyStation b.now c.now station }
    ensures joined { result.0 ≡ record { baton = b.now; knows = joined giver.knows station.seat.pass.knows } }
    ensures own { station.seat.pass.knows.own ≡ station_own station ∷ [] }
    ensures notes { result.1 ≡ station.notes }
{
    let _code = c;
    let (engine, notes, pass) = station.end();
    drop(engine);
    (b.join(giver, pass), notes)
}

/// Joins the passes of the schedulers.
pub(crate) fn end_stations<E: Engine>(
    alloc: Global,
    b: &Baton,
    giver: Pass,
    c: &Code,
    stations: Vec<Station<E>>,
) -> Result<(Pass, Notes), NoMemory>
    requires giver { IsGathered b.now c.now giver.knows.given [] giver }
    requires stations { All (IsReadyStation b.now c.now) stations.items }
    ensures giver { IfOk result (λ r. IsGathered b.now c.now giver.knows.given
        (map station_own stations.items) r.0) }
    ensures notes { IfOk result (λ r. r.1.of ≡ map (λ v. v.notes) stations.items) }
{
    let _code = c;
    let mut giver = giver;
    let mut notes: NoteLists = Sequence::new(alloc);
    for station in stations {
        let (pass, own) = end_station(b, giver, c, station);
        giver = pass;
        notes.push(own)?;
    }
    Ok((giver, Notes { of: notes }))
}

/// Joins the pass of a worker.
fn end_worker(b: &Baton, giver: Pass, c: &Code, worker: Worker) -> Pass
    requires giver { (giver.baton ≡ b.now) × IsIdle giver.knows }
    requires ready { IsReadyWorker b.now c.now worker }
    ensures joined { result ≡ record { baton = b.now; knows = joined giver.knows worker.seat.pass.knows } }
    ensures own { worker.seat.pass.knows.own ≡ worker_own worker ∷ [] }
{
    let _code = c;
    b.join(giver, worker.end())
}

/// Joins the passes of the workers.
pub(crate) fn end_workers(b: &Baton, giver: Pass, c: &Code, workers: Vec<Worker>) -> Pass
    requires giver { IsGathered b.now c.now giver.knows.given giver.knows.own giver }
    requires workers { All (IsReadyWorker b.now c.now) workers.items }
    ensures { IsGathered b.now c.now giver.knows.given
        (giver.knows.own ++ map worker_own workers.items) result }
{
    let mut giver = giver;
    for worker in workers {
        giver = end_worker(b, giver, c, worker);
    }
    giver
}

/// Joins the pass of a client of the source.
fn end_outsider(b: &Baton, giver: Pass, c: &Code, outsider: Outsider) -> Pass
    requires giver { (giver.baton ≡ b.now) × IsIdle giver.knows }
    requires ready { IsReadyOutsider b.now c.now outsider }
    ensures joined { result ≡ record { baton = b.now; knows = joined giver.knows outsider.seat.pass.knows } }
    ensures own { outsider.seat.pass.knows.own ≡ outsider_own outsider ∷ [] }
{
    let _code = c;
    b.join(giver, outsider.end())
}

/// Joins the passes of the clients of the source.
pub(crate) fn end_outsiders(b: &Baton, giver: Pass, c: &Code, outsiders: Vec<Outsider>) -> Pass
    requires giver { IsGathered b.now c.now giver.knows.given giver.knows.own giver }
    requires outsiders { All (IsReadyOutsider b.now c.now) outsiders.items }
    ensures { IsGathered b.now c.now giver.knows.given
        (giver.knows.own ++ map outsider_own outsiders.items) result }
{
    let mut giver = giver;
    for outsider in outsiders {
        giver = end_outsider(b, giver, c, outsider);
    }
    giver
}

/// Joins the pass of a caller.
fn end_desk<C: Caller>(b: &Baton, giver: Pass, c: &Code, desk: Desk<C>) -> (Pass, C)
    requires giver { (giver.baton ≡ b.now) × IsIdle giver.knows }
    requires at_work { IsAtWork b.now c.now desk.pass }
    ensures joined { result.0 ≡ record { baton = b.now; knows = joined giver.knows desk.pass.knows } }
    ensures own { desk.pass.knows.own ≡ caller_own desk.pass ∷ [] }
{
    let _code = c;
    let Desk { pass, caller, .. } = desk;
    (b.join(giver, pass), caller)
}

/// Joins the passes of the callers.
pub(crate) fn end_desks<C: Caller>(
    alloc: Global,
    b: &Baton,
    giver: Pass,
    c: &Code,
    desks: Vec<Desk<C>>,
) -> Result<(Pass, Vec<C>), NoMemory>
    requires giver { IsGathered b.now c.now giver.knows.given giver.knows.own giver }
    requires at_work { All (λ d. IsAtWork b.now c.now d.pass) desks.items }
    ensures { IfOk result (λ r. IsGathered b.now c.now giver.knows.given
        (giver.knows.own ++ map (λ d. caller_own d.pass) desks.items) r.0) }
{
    let _code = c;
    let mut giver = giver;
    let mut callers = Vec::new(alloc);
    for desk in desks {
        let (pass, caller) = end_desk(b, giver, c, desk);
        giver = pass;
        callers.push(caller)?;
    }
    Ok((giver, callers))
}
