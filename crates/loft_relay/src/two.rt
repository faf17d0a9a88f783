//! Two clients give orders from two threads.

ghost use Rattle.std.specs.Prelude.{◌≡◌, ◌==◌, ◌||◌, [], IfOk, true, false};
ghost use Rattle.std.specs.List.{All};
ghost use Rattle.loft_code.specs.View.{automata_of};
ghost use Rattle.loft_orders.specs.declared.entry.Actor.TheVariants as actor;
ghost use Rattle.loft_base.specs.declared.options.RunOptions.{RunOptions};
ghost use Rattle.loft_sense.specs.Machine.{Code as ByCode};
ghost use Rattle.loft_history.specs.Legal.{actor_of, same_actor, of, IsFaithful, IsLegal};
ghost use Rattle.loft_relay.specs.Gives.{entries_of, IsOrder, IsOrderFor, HasGiven};

use crate::one::give_all;
use loft_base::NoMemory;
use loft_baton::Baton;
use loft_code::Code;
use loft_orders::{Actor, Sent};
use loft_world::World;
use std::alloc::Global;
use std::sync::Wait;
use std::thread;
use std::thread::Threads;

/// Two clients give their orders to a new world of this code, each from a thread of its own. The world
/// then has just these orders, each client's in its order. Where each client's orders are those that it
/// has to give, the history is legal, whichever client was first each time.
pub fn give_both<R: Threads + Wait + Sync>(
    rt: &R,
    alloc: Global,
    code: &Code,
    first: u32,
    firsts: &[Sent],
    second: u32,
    seconds: &[Sent],
) -> Result<World, NoMemory>
    requires apart { (second == first) ≡ false }
    requires firsts { All (IsOrder code.now) firsts.now }
    requires seconds { All (IsOrder code.now) seconds.now }
    ensures first { IfOk result (λ w. of (actor.Client first) w.history
        ≡ entries_of first firsts.now) }
    ensures second { IfOk result (λ w. of (actor.Client second) w.history
        ≡ entries_of second seconds.now) }
    ensures only { IfOk result (λ w. All (λ e. (same_actor (actor_of e) (actor.Client first)
        || same_actor (actor_of e) (actor.Client second)) ≡ true) w.history) }
    ensures legal { IfOk result (λ w. (o : RunOptions)
        → IsFaithful (ByCode (automata_of code.now)) o (actor.Client first)
        (entries_of first firsts.now)
        → IsFaithful (ByCode (automata_of code.now)) o (actor.Client second)
        (entries_of second seconds.now)
        → IsLegal (ByCode (automata_of code.now)) o w.history) }
{
    let world = World::make(alloc, code.heads())?;
    let (baton, mut main) = Baton::make(rt, alloc, code, world)?;
    let one = baton.split(&mut main, Actor::Client(first));
    let other = baton.split(&mut main, Actor::Client(second));
    let shared = &baton;
    let (one, other) = thread::join(
        rt,
        move ||
            requires pass { HasGiven shared.now first [] one }
            requires orders { All (IsOrderFor one.knows.code) firsts.now }
            ensures { IfOk result (HasGiven shared.entry.now first firsts.entry.now) }
        { give_all(rt, alloc, shared, one, first, firsts) },
        move ||
            requires pass { HasGiven shared.now second [] other }
            requires orders { All (IsOrderFor other.knows.code) seconds.now }
            ensures { IfOk result (HasGiven shared.entry.now second seconds.entry.now) }
        { give_all(rt, alloc, shared, other, second, seconds) },
    );
    let main = baton.join(main, one?);
    let main = baton.join(main, other?);
    let world = baton.close(rt, main);
    let _length = world.length();
    Ok(world)
}
