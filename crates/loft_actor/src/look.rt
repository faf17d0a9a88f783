//! The look at the world between two phases.

ghost use Rattle.std.specs.Prelude.{◌≡◌, ◌<◌, ◌≤◌, ℕ, length, IsTrue, IfNone, IfSome};
ghost use Rattle.std.specs.List.{All};
ghost use Rattle.loft_code.specs.View.{automata_of};
ghost use Rattle.loft_sense.specs.Machine.{Code as ByCode};
ghost use Rattle.loft_history.specs.History.{has_turn, waiting};
ghost use Rattle.loft_station.specs.Stations.{IsReady as IsReadyStation};
ghost use Rattle.loft_station.specs.Outsiders.{IsReady as IsReadyOutsider, HasGivenAll};
ghost use Rattle.loft_actor.specs.Members.{IsGiver, RestFrom, SawNoMore, IsOver};
ghost use Rattle.loft_actor.specs.declared.look.Found.TheVariants.{Over, Lone};

use loft_baton::{Baton, Pass};
use loft_code::Code;
use loft_phase::Actors;
use loft_sense::Engine;
use loft_station::{Outsider, Station, Worker};
use loft_world::World;
use std::sync::Wait;

/// What there is to do after a phase.
#[derive(Clone, Copy)]
pub(crate) enum Found {
    /// Nobody has anything to do, and nobody has seen more of the history.
    Over,
    /// The scheduler of this index has a turn to make, and nobody else has anything to do.
    Lone(usize),
    /// Several schedulers have a turn to make, and nobody else has anything to do.
    Turns,
    /// Threads wait for the workers, and nobody else has anything to do.
    Jobs,
    /// Anything else.
    Several,
}

/// Whether a scheduler has a turn to make.
fn is_due<E: Engine>(world: &World, b: &Baton, c: &Code, station: &Station<E>) -> bool
    requires heads { world.now.heads ≡ c.now.heads }
    requires ready { IsReadyStation b.now c.now station.now }
    ensures { result ≡ has_turn (ByCode (automata_of c.now)) station.now.limits station.now.machine
        (waiting c.now.heads station.now.scheduler world.now.history) }
{
    let (_b, _code) = (b, c);
    station.is_due(world)
}

/// The first scheduler from this index on that has a turn to make.
fn first_due<E: Engine>(
    world: &World,
    b: &Baton,
    c: &Code,
    stations: &[Station<E>],
    from: usize,
) -> Option<usize>
    requires heads { world.now.heads ≡ c.now.heads }
    requires ready { All (IsReadyStation b.now c.now) stations.now }
    ensures none { IfNone result (RestFrom c.now world.now.history from stations.now) }
    ensures some { IfSome result (λ k. k < length stations.now) }
{
    for k in from..stations.len() {
        if is_due(world, b, c, &stations[k]) {
            return Some(k);
        }
    }
    None
}

/// Whether a client of the source has given all its orders.
fn has_given_all(b: &Baton, c: &Code, outsider: &Outsider) -> bool
    requires ready { IsReadyOutsider b.now c.now outsider.now }
    ensures { IsTrue result → HasGivenAll c.now outsider.now }
{
    let _b = b;
    let orders = &c.heads().clients[outsider.client as usize].orders;
    outsider.given >= orders.len()
}

/// Whether the clients of the source have given all their orders.
fn have_given_all(b: &Baton, c: &Code, outsiders: &[Outsider]) -> bool
    requires ready { All (IsReadyOutsider b.now c.now) outsiders.now }
    ensures { IsTrue result → All (HasGivenAll c.now) outsiders.now }
{
    for outsider in outsiders {
        if !has_given_all(b, c, outsider) {
            return false;
        }
    }
    true
}

/// Whether no scheduler has seen more than so many entries.
fn stations_saw_no_more<E: Engine>(stations: &[Station<E>], count: u64) -> bool
    ensures { IsTrue result → All (λ v. v.seat.length ≤ count) stations.now }
{
    stations.iter().all(|station| station.saw() <= count)
}

/// Whether no worker has seen more than so many entries.
fn workers_saw_no_more(workers: &[Worker], count: u64) -> bool
    ensures { IsTrue result → All (λ v. v.seat.length ≤ count) workers.now }
{
    workers.iter().all(|worker| worker.seat.length <= count)
}

/// Whether no client has seen more than so many entries.
fn outsiders_saw_no_more(outsiders: &[Outsider], count: u64) -> bool
    ensures { IsTrue result → All (λ v. v.seat.length ≤ count) outsiders.now }
{
    outsiders
        .iter()
        .all(|outsider| outsider.seat.length <= count)
}

/// Whether nobody has seen more of the history than this world has.
fn nobody_saw_more<E: Engine>(world: &World, a: &Actors<E>) -> bool
    ensures stations { IsTrue result → All (λ v. SawNoMore world.now.history v.seat) a.now.stations }
    ensures workers { IsTrue result → All (λ v. SawNoMore world.now.history v.seat) a.now.workers }
    ensures outsiders { IsTrue result → All (λ v. SawNoMore world.now.history v.seat) a.now.outsiders }
{
    let count = world.length();
    stations_saw_no_more(a.stations.as_slice(), count)
        && workers_saw_no_more(a.workers.as_slice(), count)
        && outsiders_saw_no_more(a.outsiders.as_slice(), count)
}

/// What there is to do in this world.
fn found_in<E: Engine>(world: &World, b: &Baton, c: &Code, a: &Actors<E>) -> Found
    requires heads { world.now.heads ≡ c.now.heads }
    requires stations { All (IsReadyStation b.now c.now) a.now.stations }
    requires outsiders { All (IsReadyOutsider b.now c.now) a.now.outsiders }
    ensures over { result ≡ Over → IsOver c.now world.now.history a.now.stations a.now.workers a.now.outsiders }
    ensures lone { (k : ℕ) → result ≡ Lone k → k < length a.now.stations }
{
    if !have_given_all(b, c, a.outsiders.as_slice()) {
        return Found::Several;
    }
    let has_jobs = world.jobs() > 0;
    let stations = a.stations.as_slice();
    let Some(first) = first_due(world, b, c, stations, 0) else {
        return if has_jobs {
            Found::Jobs
        } else if nobody_saw_more(world, a) {
            Found::Over
        } else {
            Found::Several
        };
    };
    let next = first_due(world, b, c, stations, first + 1);
    match next {
        _ if has_jobs => Found::Several,
        None => Found::Lone(first),
        Some(_) => Found::Turns,
    }
}

/// What there is to do, as the giving pass finds it. It waits for the world.
pub(crate) fn look<R: Wait, E: Engine>(
    rt: &R,
    b: &Baton,
    c: &Code,
    giver: &mut Pass,
    a: &Actors<E>,
) -> Found
    requires giver { IsGiver b.now c.now giver.old.knows.given giver.old }
    requires stations { All (IsReadyStation b.now c.now) a.now.stations }
    requires outsiders { All (IsReadyOutsider b.now c.now) a.now.outsiders }
    ensures giver { IsGiver b.now c.now giver.old.knows.given giver.new }
    ensures over { result ≡ Over → IsOver c.now giver.new.knows.seen a.now.stations a.now.workers a.now.outsiders }
    ensures lone { (k : ℕ) → result ≡ Lone k → k < length a.now.stations }
{
    let mut held = b.hold(rt, giver);
    let found = found_in(held.world(), b, c, a);
    b.release(rt, held, giver);
    found
}
