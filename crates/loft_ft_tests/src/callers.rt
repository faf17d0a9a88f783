//! Two callers, each in a thread of its own, give a hundred broadcasts each. At the end each one's
//! stand in its order.

ghost use Rattle.std.specs.Prelude.{◌≤◌, ◌<◌, length, IfOk};
ghost use Rattle.loft_ft_tests.specs.Passes.{IsOfCaller, HasEvent};

use crate::program::code;
use loft_base::{EventId, NoMemory};
use loft_baton::{Baton, Pass};
use loft_code::Code;
use loft_ft::{events_have_schedulers, ft_scheduler_broadcast_value};
use loft_orders::{Actor, Entry, Order, Sent};
use loft_world::World;
use std::alloc::Global;
use std::sync::Wait;
use std::test::Fail;
use std::thread;
use std::thread::Threads;

/// A caller broadcasts the first event a hundred times, with the values from 0 on.
fn give_hundred<R: Wait>(
    rt: &R,
    alloc: Global,
    b: &Baton,
    pass: Pass,
    caller: u32,
) -> Result<Pass, NoMemory>
    requires pass { IsOfCaller b.now caller pass }
    requires event { HasEvent pass.knows.code }
    ensures { IfOk result (IsOfCaller b.now caller) }
{
    let _caller = caller;
    let mut pass = pass;
    for value in 0..100u8 {
        ft_scheduler_broadcast_value(rt, alloc, b, &mut pass, EventId(0), i64::from(value))?;
    }
    Ok(pass)
}

/// The world that two callers leave who give their orders at the same time.
fn after_two<R: Threads + Wait + Sync>(
    rt: &R,
    alloc: Global,
    code: &Code,
) -> Result<World, NoMemory>
    requires clients { length code.now.heads.clients ≤ 1 }
    requires event { 0 < length code.now.heads.events }
{
    events_have_schedulers(code);
    let world = World::make(alloc, code.heads())?;
    let (baton, mut main) = Baton::make(rt, alloc, code, world)?;
    let one = baton.split(&mut main, Actor::Client(1));
    let other = baton.split(&mut main, Actor::Client(2));
    let shared = &baton;
    let (one, other) = thread::join(
        rt,
        move ||
            requires pass { IsOfCaller shared.now 1 one }
            requires event { HasEvent one.knows.code }
            ensures { IfOk result (IsOfCaller shared.entry.now 1) }
        { give_hundred(rt, alloc, shared, one, 1) },
        move ||
            requires pass { IsOfCaller shared.now 2 other }
            requires event { HasEvent other.knows.code }
            ensures { IfOk result (IsOfCaller shared.entry.now 2) }
        { give_hundred(rt, alloc, shared, other, 2) },
    );
    let main = baton.join(main, one?);
    let main = baton.join(main, other?);
    Ok(baton.close(rt, main))
}

/// The value of a broadcast.
fn value_of(sent: &Sent) -> Option<i64> {
    match &sent.order {
        Order::Broadcast { value, .. } => *value,
        _ => None,
    }
}

/// The value that this caller broadcasts with this entry.
fn value_by(caller: u32, entry: &Entry) -> Option<i64> {
    match entry {
        Entry::Client { c, sent } if *c == caller => value_of(sent.as_sent()),
        _ => None,
    }
}

/// Whether this caller's broadcasts have the values from 0 to 99, in order.
fn is_in_order(world: &World, caller: u32) -> bool {
    let mut next = 0i64;
    for at in 0..world.length() {
        if let Some(value) = value_by(caller, world.entry(at + 1)) {
            if value != next {
                return false;
            }
            next = next.wrapping_add(1);
        }
    }
    next == 100
}

/// How long the history of the two is, and whether each one's broadcasts are in its order.
fn told_of_two<R: Threads + Wait + Sync>(
    rt: &R,
    alloc: Global,
) -> Result<(u64, bool, bool), NoMemory> {
    let code = code(alloc)?;
    if code.heads().clients.len() > 1 || code.heads().events.is_empty() {
        return Err(NoMemory);
    }
    let world = after_two(rt, alloc, &code)?;
    Ok((
        world.length(),
        is_in_order(&world, 1),
        is_in_order(&world, 2),
    ))
}

#[test]
fn callers_have_threads(rt: HostRuntime) -> Result<(), Fail> {
    assert_eq!(rt; told_of_two(&rt, rt.alloc()), Ok((200, true, true)));
    Ok(())
}
