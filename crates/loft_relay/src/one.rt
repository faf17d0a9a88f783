//! One client gives orders, each while it holds the world for that one.

ghost use Rattle.std.specs.Prelude.{◌≡◌, [], ◌∷◌, IfOk, OnOk, OnErr, true};
ghost use Rattle.std.specs.List.{All};
ghost use Rattle.loft_orders.specs.declared.entry.Actor.TheVariants as actor;
ghost use Rattle.loft_orders.specs.declared.entry.Entry.TheVariants as entry;
ghost use Rattle.loft_baton.specs.Knowing.{has, IsIdle, own_with};
ghost use Rattle.loft_relay.specs.Gives.{IsOrderFor, HasGiven};

use loft_base::NoMemory;
use loft_baton::{Baton, Pass};
use loft_orders::Sent;
use std::alloc::Global;
use std::sync::Wait;

/// A client gives one order: it waits for the world, adds the order, and gives the world back. The
/// answer is the position of its entry in the history, counted from 1. Out of memory, nothing is added.
pub fn give<R: Wait>(
    rt: &R,
    alloc: Global,
    b: &Baton,
    p: &mut Pass,
    c: u32,
    sent: &Sent,
) -> Result<u64, NoMemory>
    requires pass { (p.old.baton ≡ b.now) × IsIdle p.old.knows }
    requires own { has p.old.knows.own (actor.Client c) ≡ true }
    requires order { IsOrderFor p.old.knows.code sent.now }
    ensures pass { (p.new.baton ≡ b.now) × IsIdle p.new.knows }
    ensures code { p.new.knows.code ≡ p.old.knows.code }
    ensures ok { OnOk result (p.new.knows.own
        ≡ own_with (entry.Client c sent.now ∷ []) p.old.knows.own) }
    ensures err { OnErr result (p.new.knows.own ≡ p.old.knows.own) }
{
    let mut held = b.hold(rt, p);
    let given = held.world().client(alloc, c, sent);
    b.release(rt, held, p);
    given
}

/// A client gives these orders, one after another. The pass that comes back has just them.
pub fn give_all<R: Wait>(
    rt: &R,
    alloc: Global,
    b: &Baton,
    pass: Pass,
    c: u32,
    sents: &[Sent],
) -> Result<Pass, NoMemory>
    requires pass { HasGiven b.now c [] pass }
    requires orders { All (IsOrderFor pass.knows.code) sents.now }
    ensures { IfOk result (HasGiven b.now c sents.now) }
{
    let mut pass = pass;
    for sent in sents {
        give(rt, alloc, b, &mut pass, c, sent)?;
    }
    Ok(pass)
}
