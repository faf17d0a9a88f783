//! The actors of a run, before their first turn.

ghost use Rattle.std.specs.Prelude.{◌≡◌, ◌<◌, [], ◌∷◌, ◌++◌, ℕ, map, length, false, IfOk};
ghost use Rattle.std.specs.List.{range_with_len};
ghost use Rattle.loft_code.specs.View.{automata_of};
ghost use Rattle.loft_orders.specs.declared.entry.Actor.TheVariants as actor;
ghost use Rattle.loft_sense.specs.Heads.{scheduler};
ghost use Rattle.loft_sense.specs.Machine.{Code as ByCode};
ghost use Rattle.loft_baton.specs.Knowing.{among};
ghost use Rattle.loft_actor.specs.Engines.{shown, new_engine};
ghost use Rattle.loft_actor.specs.Members.{AtIndex, IsGiver, IsStationOf, IsWorkerOf, IsOutsiderOf};
ghost use Rattle.loft_actor.specs.Members.{names_of, station_member, worker_member, outsider_member};

use loft_base::{Limits, NoMemory, SchedId, Sequence};
use loft_baton::{Baton, Pass};
use loft_code::Code;
use loft_orders::Actor;
use loft_sense::Engine;
use loft_station::{Outsider, Station, Worker};
use std::alloc::Global;

/// The scheduler of this index, with an engine of the code that has made no instant, and a pass that the
/// giving pass gives out. It takes no memory.
pub fn station_of<E: Engine>(
    alloc: Global,
    b: &Baton,
    giver: &mut Pass,
    c: &Code,
    l: Limits,
    k: usize,
    engine: E,
) -> Station<E>
    requires giver { IsGiver b.now c.now giver.old.knows.given giver.old }
    requires new { among giver.old.knows.given (actor.Sched (scheduler k)) ≡ false }
    requires declared { k < length c.now.heads.schedulers }
    requires engine { shown (E.program engine) (E.scheduler engine) (E.limits engine)
        (E.machine engine) (E.has_failed engine) ≡ new_engine (ByCode (automata_of c.now)) l k }
    ensures giver { IsGiver b.now c.now (giver.old.knows.given ++ actor.Sched (scheduler k) ∷ [])
        giver.new }
    ensures station { IsStationOf b.now c.now l k result }
{
    let _bounds = l;
    let _program = c.program();
    let pass = b.split(giver, Actor::Sched(SchedId(k as u32)));
    Station::new(alloc, engine, pass)
}

/// The schedulers.
pub(crate) fn stations_of<E: Engine>(
    alloc: Global,
    b: &Baton,
    giver: &mut Pass,
    c: &Code,
    l: Limits,
    engines: Sequence<E>,
) -> Result<Sequence<Station<E>>, NoMemory>
    requires giver { IsGiver b.now c.now [] giver.old }
    requires engines { map (λ e. shown (E.program e) (E.scheduler e) (E.limits e) (E.machine e)
        (E.has_failed e)) engines ≡ map (new_engine (ByCode (automata_of c.now)) l)
        (range_with_len 0 (length c.now.heads.schedulers)) }
    ensures giver { IfOk result (λ ss. IsGiver b.now c.now
        (names_of (map station_member ss)) giver.new) }
    ensures many { IfOk result (λ ss. length ss ≡ length c.now.heads.schedulers) }
    ensures stations { IfOk result (AtIndex (IsStationOf b.now c.now l)) }
{
    let mut engines = engines;
    let mut stations = Sequence::new(alloc);
    for k in 0..c.heads().schedulers.len() {
        let engine = engines.remove(0);
        stations.push(station_of(alloc, b, giver, c, l, k, engine))?;
    }
    Ok(stations)
}

/// So many workers, in the order of their numbers, each with a pass that the giving pass gives out and
/// this bound of a block's steps.
///
/// # Errors
///
/// Out of memory.
pub fn workers_of(
    alloc: Global,
    b: &Baton,
    giver: &mut Pass,
    c: &Code,
    block: u64,
    count: u32,
) -> Result<Sequence<Worker>, NoMemory>
    requires giver { IsGiver b.now c.now giver.old.knows.given giver.old }
    requires new { (w : ℕ) → among giver.old.knows.given (actor.Worker w) ≡ false }
    ensures giver { IfOk result (λ ws. IsGiver b.now c.now
        (giver.old.knows.given ++ names_of (map worker_member ws)) giver.new) }
    ensures many { IfOk result (λ ws. length ws ≡ count) }
    ensures workers { IfOk result (AtIndex (IsWorkerOf b.now c.now block)) }
{
    let mut workers = Sequence::new(alloc);
    for w in 0..count {
        let pass = b.split(giver, Actor::Worker(w));
        workers.push(Worker::new(pass, block))?;
    }
    Ok(workers)
}

/// The clients of the source, in the order of their declarations, each with a pass that the giving pass
/// gives out.
///
/// # Errors
///
/// Out of memory.
pub fn outsiders_of(
    alloc: Global,
    b: &Baton,
    giver: &mut Pass,
    c: &Code,
) -> Result<Sequence<Outsider>, NoMemory>
    requires giver { IsGiver b.now c.now giver.old.knows.given giver.old }
    requires new { (n : ℕ) → among giver.old.knows.given (actor.Client n) ≡ false }
    ensures giver { IfOk result (λ os. IsGiver b.now c.now
        (giver.old.knows.given ++ names_of (map outsider_member os)) giver.new) }
    ensures many { IfOk result (λ os. length os ≡ length c.now.heads.clients) }
    ensures outsiders { IfOk result (AtIndex (IsOutsiderOf b.now c.now)) }
{
    let mut outsiders = Sequence::new(alloc);
    for k in 0..c.program().heads.clients.len() {
        let client = k as u32;
        let pass = b.split(giver, Actor::Client(client));
        outsiders.push(Outsider::new(pass, client))?;
    }
    Ok(outsiders)
}
