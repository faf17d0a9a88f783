//! Each call of a caller once, one after the other.

ghost use Rattle.std.specs.Prelude.{◌≤◌, ◌<◌, [], length};
ghost use Rattle.loft_sense.specs.Heads.{scheduler};
ghost use Rattle.loft_tree.specs.HeadsFit.{HeadsFit};
ghost use Rattle.loft_ft_tests.specs.Passes.{IsOfCaller, HasEvent, MayBegin};

use crate::program::code;
use loft_base::{EventId, Maker, ModuleId, NoMemory, SchedId, ThreadId};
use loft_baton::{Baton, Pass};
use loft_code::Code;
use loft_ft::{
    events_have_schedulers, ft_scheduler_broadcast, ft_scheduler_broadcast_value,
    ft_scheduler_resume, ft_scheduler_stop, ft_scheduler_suspend, ft_thread_create,
};
use loft_orders::{Actor, Entry, Order, Sent};
use loft_world::World;
use std::alloc::Global;
use std::sync::Wait;
use std::test::Fail;

/// The stamps of six calls, and the thread that one of them makes.
type Stamps = ([u64; 6], ThreadId);

/// A caller broadcasts an event without a value and with one, creates a thread, and suspends, resumes
/// and stops that.
fn call_each<R: Wait>(
    rt: &R,
    alloc: Global,
    b: &Baton,
    p: &mut Pass,
    caller: u32,
) -> Result<Stamps, NoMemory>
    requires pass { IsOfCaller b.now caller p.old }
    requires event { HasEvent p.old.knows.code }
    requires begins { MayBegin p.old.knows.code }
    ensures { IsOfCaller b.now caller p.new }
{
    let _caller = caller;
    let (e, s) = (EventId(0), SchedId(0));
    let first = ft_scheduler_broadcast(rt, alloc, b, p, e)?.stamp;
    let second = ft_scheduler_broadcast_value(rt, alloc, b, p, e, 9)?.stamp;
    let (third, t) = ft_thread_create(rt, alloc, b, p, s, ModuleId(0), &[])?;
    let fourth = ft_scheduler_suspend(rt, alloc, b, p, s, t)?.stamp;
    let fifth = ft_scheduler_resume(rt, alloc, b, p, s, t)?.stamp;
    let sixth = ft_scheduler_stop(rt, alloc, b, p, s, t)?.stamp;
    Ok(([first, second, third.stamp, fourth, fifth, sixth], t))
}

/// What the calls answer, and the world that they leave.
fn after_calls<R: Wait>(rt: &R, alloc: Global, code: &Code) -> Result<(Stamps, World), NoMemory>
    requires clients { length code.now.heads.clients ≤ 1 }
    requires event { 0 < length code.now.heads.events }
    requires begins { HeadsFit code.now.heads (scheduler 0) (record { 0 = 0 }) [] }
{
    events_have_schedulers(code);
    let world = World::make(alloc, code.heads())?;
    let (baton, mut main) = Baton::make(rt, alloc, code, world)?;
    let mut pass = baton.split(&mut main, Actor::Client(1));
    let stamps = call_each(rt, alloc, &baton, &mut pass, 1);
    let main = baton.join(main, pass);
    let world = baton.close(rt, main);
    Ok((stamps?, world))
}

/// Whether the order is that of this call, counted from 1.
fn is_of_call(sent: &Sent, call: u64) -> bool {
    match &sent.order {
        Order::Broadcast { value: None, .. } => call == 1,
        Order::Broadcast { value: Some(9), .. } => call == 2,
        Order::Create { .. } => call == 3,
        Order::Suspend(_) => call == 4,
        Order::Resume(_) => call == 5,
        Order::Stop(_) => call == 6,
        _ => false,
    }
}

/// Whether the history has just the orders of the calls, in their order.
fn has_each(world: &World) -> bool {
    for at in 0..world.length() {
        let is_there = match world.entry(at + 1) {
            Entry::Client { c: 1, sent } => is_of_call(sent.as_sent(), at + 1),
            _ => false,
        };
        if !is_there {
            return false;
        }
    }
    world.length() == 6
}

/// What the calls answer, and whether the history has them.
fn told_of_calls<R: Wait>(rt: &R, alloc: Global) -> Result<(Stamps, bool), NoMemory> {
    let code = code(alloc)?;
    let heads = code.heads();
    if heads.clients.len() > 1
        || heads.events.is_empty()
        || !heads.fits(SchedId(0), ModuleId(0), &[])
    {
        return Err(NoMemory);
    }
    let (stamps, world) = after_calls(rt, alloc, &code)?;
    Ok((stamps, has_each(&world)))
}

#[test]
fn each_call_is_accepted(rt: HostRuntime) -> Result<(), Fail> {
    let t = ThreadId {
        maker: Maker::Client(1),
        seq: 0,
    };
    assert_eq!(rt;
        told_of_calls(&rt, rt.alloc()),
        Ok((([1, 2, 3, 4, 5, 6], t), true))
    );
    Ok(())
}
