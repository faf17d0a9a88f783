//! Clients that give orders to one world, each from a thread of its own, come to an end, and none of their orders is lost.

use crate::program::code;
use loft_base::{EventId, NoMemory};
use loft_relay::{broadcasts, give_both, give_each};
use std::alloc::Global;
use std::sync::Wait;
use std::test::Fail;
use std::thread::Threads;

/// How long the history of two clients is.
fn both<R: Threads + Wait + Sync>(rt: &R, alloc: Global) -> Result<u64, NoMemory> {
    let code = code(alloc)?;
    let firsts = broadcasts(alloc, &code, EventId(0), &[1; 100])?;
    let seconds = broadcasts(alloc, &code, EventId(0), &[2; 100])?;
    let world = give_both(
        rt,
        alloc,
        &code,
        0,
        firsts.as_slice(),
        1,
        seconds.as_slice(),
    )?;
    Ok(world.length())
}

/// How long the history of five clients is.
fn each<R: Threads + Wait + Sync>(rt: &R, alloc: Global) -> Result<u64, NoMemory> {
    let code = code(alloc)?;
    let orders = broadcasts(alloc, &code, EventId(0), &[3; 40])?;
    let world = give_each(rt, alloc, &code, &[0, 1, 2, 3, 4], orders.as_slice())?;
    Ok(world.length())
}

#[test]
fn clients_have_threads(rt: HostRuntime) -> Result<(), Fail> {
    assert_eq!(rt;
        [both(&rt, rt.alloc()), each(&rt, rt.alloc())],
        [Ok(200), Ok(200)]
    );
    Ok(())
}
