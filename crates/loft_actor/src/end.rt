//! The passes of all actors come together, and the world is taken out.

ghost use Rattle.std.specs.Prelude.{◌≡◌, [], map, IfOk};
ghost use Rattle.std.specs.List.{All};
ghost use Rattle.loft_code.specs.View.{automata_of};
ghost use Rattle.loft_orders.specs.declared.entry.Actor.TheVariants as actor;
ghost use Rattle.loft_sense.specs.Machine.{Code as ByCode};
ghost use Rattle.loft_baton.specs.Knowing.{IsIdle, joined};
ghost use Rattle.loft_seat.specs.Seats.{entries_of, IsSeat};
ghost use Rattle.loft_station.specs.Stations.{IsReady as IsReadyStation};
ghost use Rattle.loft_station.specs.Workers.{IsReady as IsReadyWorker};
ghost use Rattle.loft_station.specs.Outsiders.{IsReady as IsReadyOutsider};
ghost use Rattle.loft_actor.specs.Engines.{shown};
ghost use Rattle.loft_actor.specs.Members.{Joins, IsGiver, station_member, worker_member, outsider_member, members_of};

use loft_base::{NoMemory, Sequence};
use loft_baton::{Baton, Pass};
use loft_code::Code;
use loft_phase::Actors;
use loft_sense::Engine;
use loft_station::{Outsider, Station, Worker};
use loft_world::{NoteList, NoteLists, Notes};
use std::alloc::Global;

/// Joins the pass of a scheduler.
fn end_station<E: Engine>(
    b: &Baton,
    giver: Pass,
    c: &Code,
    station: Station<E>,
) -> (Pass, E, NoteList)
    requires giver { (giver.baton ≡ b.now) × IsIdle giver.knows }
    requires ready { IsReadyStation b.now c.now station }
    ensures joined { result.0 ≡ record { baton = b.now; knows = joined giver.knows station.seat.pass.knows } }
    ensures seat { IsSeat b.now c.now (actor.Sched station.scheduler) (entries_of station.seat)
        station.seat }
    ensures engine { shown (E.program result.1) (E.scheduler result.1) (E.limits result.1)
        (E.machine result.1) (E.has_failed result.1) ≡ shown (ByCode (automata_of c.now))
        station.scheduler station.limits station.machine station.failed }
    ensures notes { result.2 ≡ station.notes }
{
    let _code = c;
    let (engine, notes, pass) = station.end();
    (b.join(giver, pass), engine, notes)
}

/// Joins the passes of the schedulers.
fn end_stations<E: Engine>(
    alloc: Global,
    b: &Baton,
    giver: Pass,
    c: &Code,
    stations: Vec<Station<E>>,
) -> Result<(Pass, Sequence<E>, Notes), NoMemory>
    requires giver { Joins b.now giver [] giver }
    requires stations { All (IsReadyStation b.now c.now) stations.items }
    ensures giver { IfOk result (λ r. Joins b.now giver (map station_member stations.items) r.0) }
    ensures engines { IfOk result (λ r. map (λ e. shown (E.program e) (E.scheduler e) (E.limits e)
        (E.machine e) (E.has_failed e)) r.1 ≡ map (λ v. shown (ByCode (automata_of c.now))
        v.scheduler v.limits v.machine v.failed) stations.items) }
    ensures notes { IfOk result (λ r. r.2.of ≡ map (λ v. v.notes) stations.items) }
{
    let mut giver = giver;
    let mut engines = Sequence::new(alloc);
    let mut notes: NoteLists = Sequence::new(alloc);
    for station in stations {
        let (pass, engine, own) = end_station(b, giver, c, station);
        giver = pass;
        engines.push(engine)?;
        notes.push(own)?;
    }
    Ok((giver, engines, Notes { of: notes }))
}

/// Joins the pass of a worker.
fn end_worker(b: &Baton, giver: Pass, c: &Code, worker: Worker) -> Pass
    requires giver { (giver.baton ≡ b.now) × IsIdle giver.knows }
    requires ready { IsReadyWorker b.now c.now worker }
    ensures joined { result ≡ record { baton = b.now; knows = joined giver.knows worker.seat.pass.knows } }
    ensures seat { IsSeat b.now c.now (actor.Worker worker.number) (entries_of worker.seat) worker.seat }
{
    let _code = c;
    b.join(giver, worker.end())
}

/// Joins the passes of the workers.
fn end_workers(b: &Baton, giver: Pass, c: &Code, workers: Vec<Worker>) -> Pass
    requires giver { Joins b.now giver [] giver }
    requires workers { All (IsReadyWorker b.now c.now) workers.items }
    ensures { Joins b.now giver (map worker_member workers.items) result }
{
    let mut giver = giver;
    for worker in workers {
        giver = end_worker(b, giver, c, worker);
    }
    giver
}

/// Joins the pass of a client.
fn end_outsider(b: &Baton, giver: Pass, c: &Code, outsider: Outsider) -> Pass
    requires giver { (giver.baton ≡ b.now) × IsIdle giver.knows }
    requires ready { IsReadyOutsider b.now c.now outsider }
    ensures joined { result ≡ record { baton = b.now; knows = joined giver.knows outsider.seat.pass.knows } }
    ensures seat { IsSeat b.now c.now (actor.Client outsider.client) (entries_of outsider.seat) outsider.seat }
{
    let _code = c;
    b.join(giver, outsider.end())
}

/// Joins the passes of the clients.
fn end_outsiders(b: &Baton, giver: Pass, c: &Code, outsiders: Vec<Outsider>) -> Pass
    requires giver { Joins b.now giver [] giver }
    requires outsiders { All (IsReadyOutsider b.now c.now) outsiders.items }
    ensures { Joins b.now giver (map outsider_member outsiders.items) result }
{
    let mut giver = giver;
    for outsider in outsiders {
        giver = end_outsider(b, giver, c, outsider);
    }
    giver
}

/// Joins the passes of all actors.
pub(crate) fn end_all<E: Engine>(
    alloc: Global,
    b: &Baton,
    giver: Pass,
    c: &Code,
    a: Actors<E>,
) -> Result<(Pass, Sequence<E>, Notes), NoMemory>
    requires giver { IsGiver b.now c.now giver.knows.given giver }
    requires stations { All (IsReadyStation b.now c.now) a.stations }
    requires workers { All (IsReadyWorker b.now c.now) a.workers }
    requires outsiders { All (IsReadyOutsider b.now c.now) a.outsiders }
    ensures giver { IfOk result (λ r. Joins b.now giver (members_of a.stations a.workers a.outsiders) r.0) }
    ensures engines { IfOk result (λ r. map (λ e. shown (E.program e) (E.scheduler e) (E.limits e)
        (E.machine e) (E.has_failed e)) r.1 ≡ map (λ v. shown (ByCode (automata_of c.now))
        v.scheduler v.limits v.machine v.failed) a.stations) }
    ensures notes { IfOk result (λ r. r.2.of ≡ map (λ v. v.notes) a.stations) }
{
    let Actors {
        stations,
        workers,
        outsiders,
    } = a;
    let (giver, engines, notes) = end_stations(alloc, b, giver, c, stations.into_vec())?;
    let giver = end_workers(b, giver, c, workers.into_vec());
    let giver = end_outsiders(b, giver, c, outsiders.into_vec());
    Ok((giver, engines, notes))
}
