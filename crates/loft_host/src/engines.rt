//! Rounds by the engines that step through code. They may go to other threads.

ghost use Rattle.std.specs.Prelude.{◌≡◌, length, IfOk, OnOk};
ghost use Rattle.loft_actor.specs.Members.{AtIndex, IsGiver, IsStationOf, IsWorkerOf, IsOutsiderOf};
ghost use Rattle.loft_host.specs.Callers.{IsCallerOf};

use crate::caller::Caller;
use crate::desk::Desk;
use crate::round::rounds;
use loft_base::{Gate, Limits, NoMemory};
use loft_baton::{Baton, Pass};
use loft_code::Code;
use loft_engine::CodeEngine;
use loft_phase::Actors;
use std::alloc::Global;
use std::sync::Wait;
use std::thread::Threads;

/// Rounds until each caller has had its last turn, and a round adds nothing.
fn rounds_of_engines<R: Threads + Wait + Sync, C: Caller + Send, G: Gate>(
    rt: &R,
    alloc: Global,
    b: &Baton,
    c: &Code,
    l: Limits,
    g: &G,
    giver: &mut Pass,
    a: &mut Actors<CodeEngine<'_>>,
    desks: &mut [Desk<C>],
) -> Result<(), NoMemory>
    requires giver { IsGiver b.now c.now giver.old.knows.given giver.old }
    requires stations { AtIndex (IsStationOf b.now c.now l) a.old.stations }
    requires workers { AtIndex (IsWorkerOf b.now c.now l.block) a.old.workers }
    requires outsiders { AtIndex (IsOutsiderOf b.now c.now) a.old.outsiders }
    requires callers { AtIndex (λ i d. IsCallerOf b.now c.now i d.pass) desks.old }
    ensures giver { OnOk result (IsGiver b.now c.now giver.old.knows.given giver.new) }
    ensures stations { OnOk result (AtIndex (IsStationOf b.now c.now l) a.new.stations) }
    ensures workers { OnOk result (AtIndex (IsWorkerOf b.now c.now l.block) a.new.workers) }
    ensures outsiders { OnOk result (AtIndex (IsOutsiderOf b.now c.now) a.new.outsiders) }
    ensures callers { OnOk result (AtIndex (λ i d. IsCallerOf b.now c.now i d.pass) desks.new) }
    ensures many { (length a.new.stations ≡ length a.old.stations)
        × (length a.new.workers ≡ length a.old.workers)
        × (length a.new.outsiders ≡ length a.old.outsiders) }
{
    rounds(rt, alloc, b, c, l, g, giver, a, desks)
}

/// The same for callers that are owned.
pub(crate) fn rounds_of_all<R: Threads + Wait + Sync, C: Caller + Send, G: Gate>(
    rt: &R,
    alloc: Global,
    b: &Baton,
    c: &Code,
    l: Limits,
    g: &G,
    giver: &mut Pass,
    a: &mut Actors<CodeEngine<'_>>,
    desks: Vec<Desk<C>>,
) -> Result<Vec<Desk<C>>, NoMemory>
    requires giver { IsGiver b.now c.now giver.old.knows.given giver.old }
    requires stations { AtIndex (IsStationOf b.now c.now l) a.old.stations }
    requires workers { AtIndex (IsWorkerOf b.now c.now l.block) a.old.workers }
    requires outsiders { AtIndex (IsOutsiderOf b.now c.now) a.old.outsiders }
    requires callers { AtIndex (λ i d. IsCallerOf b.now c.now i d.pass) desks.items }
    ensures giver { OnOk result (IsGiver b.now c.now giver.old.knows.given giver.new) }
    ensures stations { OnOk result (AtIndex (IsStationOf b.now c.now l) a.new.stations) }
    ensures workers { OnOk result (AtIndex (IsWorkerOf b.now c.now l.block) a.new.workers) }
    ensures outsiders { OnOk result (AtIndex (IsOutsiderOf b.now c.now) a.new.outsiders) }
    ensures callers { IfOk result (λ ds. AtIndex (λ i d. IsCallerOf b.now c.now i d.pass)
        ds.items) }
    ensures same { IfOk result (λ ds. length ds.items ≡ length desks.items) }
    ensures many { (length a.new.stations ≡ length a.old.stations)
        × (length a.new.workers ≡ length a.old.workers)
        × (length a.new.outsiders ≡ length a.old.outsiders) }
{
    let mut desks = desks;
    rounds_of_engines(rt, alloc, b, c, l, g, giver, a, desks.as_mut_slice())?;
    Ok(desks)
}
