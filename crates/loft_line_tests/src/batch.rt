//! Threads that are linked, suspended and stopped.

use loft_base::{EventId, Maker, Sequence, ThreadId};
use loft_line::Line;
use loft_orders::{Thread, Wait};
use std::alloc::Global;
use std::test::Fail;

/// The name of a thread of the source.
fn name(seq: u64) -> ThreadId {
    ThreadId {
        maker: Maker::Source,
        seq,
    }
}

/// A thread with this wait.
fn thread(alloc: Global, seq: u64, wait: Wait) -> Thread {
    Thread {
        id: name(seq),
        code: 0,
        mask: 0,
        wait,
        frames: Sequence::new(alloc),
    }
}

/// Of three threads one is stopped and one suspended; others aren't linked.
#[test]
fn a_batch_is_applied(rt: HostRuntime) -> Result<(), Fail> {
    let alloc = rt.alloc();
    let mut line = Line::new(alloc, 2, 100)?;
    line.link(thread(alloc, 0, Wait::New))?;
    line.link(thread(alloc, 1, Wait::Halt))?;
    line.link(thread(alloc, 2, Wait::Coop(3)))?;
    assert_eq!(rt; line.len(), 3);
    assert!(rt; line.stop(alloc, name(1)));
    assert!(rt; !line.stop(alloc, name(1)));
    assert!(rt; line.suspend(name(2), true)?);
    assert!(rt; !line.suspend(name(7), true)?);
    assert_eq!(rt; line.len(), 2);
    line.on_event(EventId(1), 0);
    line.on_ended(alloc, name(1))?;
    let standings = line.standings(alloc)?;
    assert_eq!(rt; standings.len(), 2);
    assert_eq!(rt; standings.as_slice()[0].thread.id, name(0));
    assert!(rt; !standings.as_slice()[0].suspended);
    assert_eq!(rt; standings.as_slice()[1].thread.id, name(2));
    assert!(rt; standings.as_slice()[1].suspended);
    Ok(())
}

/// A thread that is suspended doesn't wait; resumed, it goes on where it was.
#[test]
fn a_suspended_number_stands_still(rt: HostRuntime) -> Result<(), Fail> {
    let alloc = rt.alloc();
    let mut line = Line::new(alloc, 0, 100)?;
    line.link(thread(alloc, 0, Wait::Coop(3)))?;
    assert!(rt; line.suspend(name(0), true)?);
    let mut sent = Sequence::new(alloc);
    if line.waits.next_after(usize::MAX).is_some() {
        return Err("somebody can go at the close".into());
    }
    assert_eq!(rt; line.close(alloc, &mut sent)?.len(), 0);
    assert!(rt; line.rests());
    assert!(rt; line.suspend(name(0), false)?);
    if line.waits.next_after(usize::MAX).is_some() {
        return Err("somebody can go at the close".into());
    }
    assert_eq!(rt; line.close(alloc, &mut sent)?.len(), 0);
    assert!(rt; !line.rests());
    let standings = line.standings(alloc)?;
    assert_eq!(rt; standings.len(), 1);
    assert!(rt; matches!(standings.as_slice()[0].thread.wait, Wait::Coop(2)));
    assert_eq!(rt; sent.len(), 0);
    Ok(())
}
