//! Several threads that wait: who goes next.

ghost use Rattle.std.specs.Prelude.{◌≡◌, [], replicate, IfOk};
ghost use Rattle.loft_waits.specs.Told.{nobody, no_counts};

use loft_base::{EventId, NoMemory};
use loft_orders::{Events, Wait};
use loft_waits::Waits;
use std::alloc::Global;
use std::test::Fail;

/// So many positions where nobody waits, over one event.
fn free(alloc: Global, positions: usize) -> Result<Waits, NoMemory>
    ensures { IfOk result (λ w. w ≡ record {
      waits = replicate positions nobody;
      counts = no_counts 1;
      ended = [];
      closes = 0;
    }) }
{
    let mut waits = Waits::new(alloc, 1)?;
    for _position in 0..positions {
        waits.grow()?;
    }
    Ok(waits)
}

/// A wait for event 0.
fn event(alloc: Global) -> Result<Wait, NoMemory> {
    let events = Events::from_slice(alloc, &[EventId(0)])?;
    Ok(Wait::Events { events, left: None })
}

/// The next position of all, and those after 0, 1 and 2.
fn next(waits: &Waits) -> [Option<usize>; 4] {
    [
        waits.next_after(usize::MAX),
        waits.next_after(0),
        waits.next_after(1),
        waits.next_after(2),
    ]
}

/// Threads at 0 and 2 wait for one event. The thread at 1 is suspended: it isn't entered, and nobody
/// waits there.
#[test]
fn two_wait_for_one_event(rt: HostRuntime) -> Result<(), Fail> {
    let alloc = rt.alloc();
    let mut waits = free(alloc, 3)?;
    let wait = event(alloc)?;
    waits.add(alloc, 0, &wait)?;
    waits.add(alloc, 2, &wait)?;
    assert_eq!(rt; next(&waits), [None; 4]);
    waits.on_event(EventId(0), 0);
    assert_eq!(rt; next(&waits), [Some(0), Some(2), Some(2), Some(0)]);
    waits.remove(0);
    assert_eq!(rt; next(&waits), [Some(2); 4]);
    waits.remove(2);
    assert_eq!(rt; next(&waits), [None; 4]);
    Ok(())
}

/// A position at the end goes, and comes again with nobody.
#[test]
#[tactic(auto, using(crate::proofs::Positions::free_after))]
fn positions_go_and_come(rt: HostRuntime) -> Result<(), Fail> {
    let alloc = rt.alloc();
    let mut waits = Waits::new(alloc, 1)?;
    waits.grow()?;
    waits.grow()?;
    waits.truncate(1);
    waits.add(alloc, 0, &Wait::New)?;
    assert_eq!(rt; next(&waits), [Some(0); 4]);
    waits.grow()?;
    waits.add(alloc, 1, &Wait::Next)?;
    assert_eq!(rt; next(&waits), [Some(0), Some(1), Some(0), Some(0)]);
    Ok(())
}

/// A wait that is handed over comes back as the closes have lowered it; a copy is like it.
#[test]
fn a_wait_comes_back(rt: HostRuntime) -> Result<(), Fail> {
    let alloc = rt.alloc();
    let mut waits = free(alloc, 2)?;
    waits.put(0, Wait::Halt)?;
    assert!(rt; !waits.any_alone());
    waits.put(1, Wait::Coop(2))?;
    assert!(rt; waits.any_alone());
    if waits.next_after(usize::MAX).is_some() {
        return Err("somebody can go at the close".into());
    }
    waits.close();
    assert!(rt; matches!(waits.wait(alloc, 1)?, Some(Wait::Coop(1))));
    assert!(rt; matches!(waits.take(1), Some(Wait::Coop(1))));
    assert!(rt; !waits.any_alone());
    assert!(rt; matches!(waits.take(0), Some(Wait::Halt)));
    Ok(())
}
