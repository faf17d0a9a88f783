//! A whole run, to which threads of the host program give orders.

ghost use Rattle.std.specs.Prelude.{◌≡◌, ◌^◌, ◌<◌, map, length, IfOk};
ghost use Rattle.loft_base.specs.Options.{IsInRange, HasWorkers};
ghost use Rattle.loft_code.specs.View.{automata_of};
ghost use Rattle.loft_sense.specs.Machine.{Code as ByCode};
ghost use Rattle.loft_history.specs.History.{replayed};
ghost use Rattle.loft_history.specs.Legal.{IsLegal};
ghost use Rattle.loft_history.specs.Report.{schedulers};
ghost use Rattle.loft_actor.specs.Members.{AtIndex, IsGiver, IsStationOf, IsWorkerOf, IsOutsiderOf};
ghost use Rattle.loft_host.specs.Callers.{IsCallerOf};
ghost use Rattle.loft_host.specs.Gathered.{everyone};

use crate::begin::{desks_of, stations_of};
use crate::caller::Caller;
use crate::desk::Desk;
use crate::end::{end_desks, end_outsiders, end_stations, end_workers};
use crate::engines::rounds_of_all;
use loft_actor::{outsiders_of, workers_of};
use loft_base::{Gate, NoMemory, RunOptions};
use loft_baton::{Baton, Pass, closed_histories_are_legal};
use loft_code::Code;
use loft_phase::Actors;
use loft_sense::Engine;
use loft_world::{Notes, World};
use std::alloc::Global;
use std::sync::Wait;
use std::thread::Threads;

/// What a run left.
#[derive(Drop)]
pub struct Hosted<C: Caller> {
    /// The world with its history.
    pub world: World,
    /// What the instants of each scheduler did, in the order of the declarations.
    pub notes: Notes,
    /// The callers as their last turns left them, in their order.
    pub callers: Vec<C>,
}

/// Joins all passes, and takes the world out.
fn finish<R: Threads + Wait + Sync, E: Engine, C: Caller>(
    rt: &R,
    alloc: Global,
    b: Baton,
    c: &Code,
    o: RunOptions,
    giver: Pass,
    a: Actors<E>,
    desks: Vec<Desk<C>>,
) -> Result<Hosted<C>, NoMemory>
    requires giver { IsGiver b c.now (everyone (length c.now.heads.schedulers) o.workers
        (length c.now.heads.clients) (length desks.items)) giver }
    requires stations { AtIndex (IsStationOf b c.now o.limits) a.stations }
    requires workers { AtIndex (IsWorkerOf b c.now o.limits.block) a.workers }
    requires outsiders { AtIndex (IsOutsiderOf b c.now) a.outsiders }
    requires callers { AtIndex (λ i d. IsCallerOf b c.now i d.pass) desks.items }
    requires many { (length a.stations ≡ length c.now.heads.schedulers)
        × (length a.workers ≡ o.workers) × (length a.outsiders ≡ length c.now.heads.clients) }
    ensures heads { IfOk result (λ r. r.world.heads ≡ c.now.heads) }
    ensures legal { IfOk result (λ r. IsLegal (ByCode (automata_of c.now)) o r.world.history) }
    ensures notes { IfOk result (λ r. r.notes.of ≡ map (λ s. (replayed (ByCode (automata_of c.now))
        o.limits s r.world.history).notes) (schedulers (ByCode (automata_of c.now)))) }
{
    let _options = o;
    let Actors {
        stations,
        workers,
        outsiders,
    } = a;
    let (first, notes) = end_stations(alloc, &b, giver, c, stations.into_vec())?;
    let second = end_workers(&b, first, c, workers.into_vec());
    let third = end_outsiders(&b, second, c, outsiders.into_vec());
    let (last, callers) = end_desks(alloc, &b, third, c, desks)?;
    let world = b.close(rt, last);
    let _length = world.length();
    closed_histories_are_legal();
    Ok(Hosted {
        world,
        notes,
        callers,
    })
}

/// A whole run of valid code, to which the callers give orders: rounds, in which the actors of the
/// source make a phase, each on a thread of its own, and at the same time each caller makes a turn on
/// a thread of its own. It is over when each caller has had its last turn and a round added nothing to
/// the history. It may wait.
///
/// # Errors
///
/// Out of memory, of this call or of a caller.
pub fn run_with_callers<R: Threads + Wait + Sync, C: Caller + Send, G: Gate>(
    rt: &R,
    alloc: Global,
    c: &Code,
    o: RunOptions,
    callers: Vec<C>,
    g: &G,
) -> Result<Hosted<C>, NoMemory>
    requires range { IsInRange o.limits }
    requires workers { HasWorkers o }
    requires few { length callers.items < 2 ^ 31 }
    ensures heads { IfOk result (λ r. r.world.heads ≡ c.now.heads) }
    ensures legal { IfOk result (λ r. IsLegal (ByCode (automata_of c.now)) o r.world.history) }
    ensures notes { IfOk result (λ r. r.notes.of ≡ map (λ s. (replayed (ByCode (automata_of c.now))
        o.limits s r.world.history).notes) (schedulers (ByCode (automata_of c.now)))) }
{
    let world = World::make(alloc, c.heads())?;
    let (b, mut giver) = Baton::make(rt, alloc, c, world)?;
    let stations = stations_of(alloc, &b, &mut giver, c, o.limits)?;
    let workers = workers_of(alloc, &b, &mut giver, c, o.limits.block, o.workers)?;
    let outsiders = outsiders_of(alloc, &b, &mut giver, c)?;
    let desks = desks_of(alloc, &b, &mut giver, c, callers)?;
    let mut actors = Actors {
        stations,
        workers,
        outsiders,
    };
    let after = rounds_of_all(
        rt,
        alloc,
        &b,
        c,
        o.limits,
        g,
        &mut giver,
        &mut actors,
        desks,
    )?;
    finish(rt, alloc, b, c, o, giver, actors, after)
}
