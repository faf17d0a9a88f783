//! The actors of a run and the callers, before their first turn.

ghost use Rattle.std.specs.Prelude.{◌≡◌, ◌+◌, ◌^◌, ◌<◌, ◌≤◌, ◌∷◌, ◌++◌, [], ℕ, length, map, false, IfOk, OnOk};
ghost use Rattle.loft_base.specs.Options.{IsInRange};
ghost use Rattle.loft_orders.specs.declared.entry.Actor.TheVariants as actor;
ghost use Rattle.loft_sense.specs.Heads.{scheduler};
ghost use Rattle.loft_baton.specs.Knowing.{among};
ghost use Rattle.loft_actor.specs.Members.{AtIndex, IsGiver, IsStationOf};
ghost use Rattle.loft_actor.specs.Members.{names_of, station_member};
ghost use Rattle.loft_host.specs.Callers.{IsCallerOf, callers_in};

use crate::caller::{Caller, Next};
use crate::desk::Desk;
use loft_base::{Limits, NoMemory, SchedId, Sequence};
use loft_baton::{Baton, Pass};
use loft_code::Code;
use loft_engine::CodeEngine;
use loft_orders::Actor;
use loft_station::Station;
use std::alloc::Global;

/// The scheduler of this index, with an engine of its own.
fn station_of<'a>(
    alloc: Global,
    b: &Baton,
    giver: &mut Pass,
    c: &'a Code,
    l: Limits,
    k: usize,
) -> Result<Station<CodeEngine<'a>>, NoMemory>
    requires giver { IsGiver b.now c.now giver.old.knows.given giver.old }
    requires new { among giver.old.knows.given (actor.Sched (scheduler k)) ≡ false }
    requires declared { k < length c.now.heads.schedulers }
    requires range { IsInRange l }
    ensures giver { OnOk result (IsGiver b.now c.now
        (giver.old.knows.given ++ actor.Sched (scheduler k) ∷ []) giver.new) }
    ensures station { IfOk result (IsStationOf b.now c.now l k) }
{
    let _program = c.program();
    let engine = CodeEngine::new(alloc, c, SchedId(k as u32), l)?;
    Ok(loft_actor::station_of(alloc, b, giver, c, l, k, engine))
}

/// The schedulers.
pub(crate) fn stations_of<'a>(
    alloc: Global,
    b: &Baton,
    giver: &mut Pass,
    c: &'a Code,
    l: Limits,
) -> Result<Sequence<Station<CodeEngine<'a>>>, NoMemory>
    requires giver { IsGiver b.now c.now [] giver.old }
    requires range { IsInRange l }
    ensures giver { IfOk result (λ ss. IsGiver b.now c.now
        (names_of (map station_member ss)) giver.new) }
    ensures many { IfOk result (λ ss. length ss ≡ length c.now.heads.schedulers) }
    ensures stations { IfOk result (AtIndex (IsStationOf b.now c.now l)) }
{
    let mut stations = Sequence::new(alloc);
    for k in 0..c.heads().schedulers.len() {
        let station = station_of(alloc, b, giver, c, l, k)?;
        stations.push(station)?;
    }
    Ok(stations)
}

/// The caller of this index, whose number follows those of the clients of the source and of the
/// callers before it.
fn desk_of<C: Caller>(b: &Baton, giver: &mut Pass, c: &Code, k: usize, caller: C) -> Desk<C>
    requires giver { IsGiver b.now c.now giver.old.knows.given giver.old }
    requires new { among giver.old.knows.given
        (actor.Client (length c.now.heads.clients + k)) ≡ false }
    requires few { k < 2 ^ 31 }
    ensures giver { IsGiver b.now c.now (giver.old.knows.given
        ++ actor.Client (length c.now.heads.clients + k) ∷ []) giver.new }
    ensures caller { IsCallerOf b.now c.now k result.pass }
{
    let number = c.program().heads.clients.len() as u32 + k as u32;
    let pass = b.split(giver, Actor::Client(number));
    Desk {
        pass,
        caller,
        next: Next::Go,
        refused: false,
    }
}

/// The callers.
pub(crate) fn desks_of<C: Caller>(
    alloc: Global,
    b: &Baton,
    giver: &mut Pass,
    c: &Code,
    callers: Vec<C>,
) -> Result<Vec<Desk<C>>, NoMemory>
    requires giver { IsGiver b.now c.now giver.old.knows.given giver.old }
    requires new { (n : ℕ) → length c.now.heads.clients ≤ n
        → among giver.old.knows.given (actor.Client n) ≡ false }
    requires few { length callers.items < 2 ^ 31 }
    ensures giver { IfOk result (λ ds. IsGiver b.now c.now
        (giver.old.knows.given ++ callers_in (map (λ d. d.pass) ds.items)) giver.new) }
    ensures many { IfOk result (λ ds. length ds.items ≡ length callers.items) }
    ensures callers { IfOk result (λ ds. AtIndex (λ i d. IsCallerOf b.now c.now i d.pass)
        ds.items) }
{
    let mut desks = Vec::new(alloc);
    let mut left = callers;
    let count = left.len();
    for k in 0..count {
        let caller = left.remove(0);
        let desk = desk_of(b, giver, c, k, caller);
        desks.push(desk)?;
    }
    Ok(desks)
}
