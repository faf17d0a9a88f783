//! One thread that waits: when it can go, and what is left of its wait.

ghost use Rattle.std.specs.Prelude.{◌<◌, length};

use crate::told::{Step, tell_all};
use loft_base::{EventId, Maker, NoMemory, ThreadId};
use loft_orders::{Events, Wait};
use loft_waits::Waits;
use std::alloc::Global;
use std::test::Fail;

/// What the waits say of the thread at the one position: whether it can go, the number left in its
/// wait, and whether it waits for a value that did not come.
type Seen = (bool, Option<i64>, bool);

const HELD: Seen = (false, None, false);

const GOES: Seen = (true, None, false);

const JOINED: ThreadId = ThreadId {
    maker: Maker::Source,
    seq: 0,
};

const OTHER: ThreadId = ThreadId {
    maker: Maker::Source,
    seq: 1,
};

/// What the waits say, where some steps are told, the thread begins to wait, and some more are told.
#[tactic(auto, using(crate::proofs::Positions::first_free))]
fn seen(alloc: Global, before: &[Step], wait: Wait, after: &[Step]) -> Result<Seen, Fail>
    requires few { length before.now < 10 }
    requires few_after { length after.now < 10 }
{
    let mut waits = Waits::new(alloc, 2)?;
    tell_all(alloc, &mut waits, before)?;
    waits.grow()?;
    waits.add(alloc, 0, &wait)?;
    tell_all(alloc, &mut waits, after)?;
    let goes = waits.next_after(usize::MAX) == Some(0);
    Ok((goes, waits.left(0), waits.is_late(0)))
}

/// A wait for event 0, for at most so many instants where there is a number.
fn event(alloc: Global, left: Option<i64>) -> Result<Wait, NoMemory> {
    let events = Events::from_slice(alloc, &[EventId(0)])?;
    Ok(Wait::Events { events, left })
}

/// A wait for the value of event 0 with index 1.
fn second_value() -> Wait {
    Wait::Index {
        event: EventId(0),
        at: 1,
    }
}

/// A wait for the end of the thread 0.
fn join(left: Option<i64>) -> Wait {
    Wait::Join {
        thread: JOINED,
        left,
    }
}

#[test]
fn nothing_to_wait_for(rt: HostRuntime) -> Result<(), Fail> {
    let alloc = rt.alloc();
    assert_eq!(rt; seen(alloc, &[], Wait::New, &[])?, GOES);
    assert_eq!(rt; seen(alloc, &[], Wait::Next, &[])?, (true, None, true));
    let halt = [Step::Event(1), Step::Ended(JOINED), Step::Close];
    assert_eq!(rt; seen(alloc, &[], Wait::Halt, &halt)?, HELD);
    Ok(())
}

#[test]
fn instants(rt: HostRuntime) -> Result<(), Fail> {
    let alloc = rt.alloc();
    let closes = [Step::Close, Step::Close];
    assert_eq!(rt;
        seen(alloc, &[], Wait::Coop(2), &[Step::Close])?,
        (false, Some(1), false)
    );
    assert_eq!(rt;
        seen(alloc, &[], Wait::Coop(2), &closes)?,
        (true, Some(0), false)
    );
    assert_eq!(rt;
        seen(alloc, &[], Wait::Coop(-1), &closes)?,
        (false, Some(-1), false)
    );
    assert_eq!(rt;
        seen(alloc, &closes, Wait::Coop(0), &[])?,
        (true, Some(0), false)
    );
    Ok(())
}

#[test]
fn events(rt: HostRuntime) -> Result<(), Fail> {
    let alloc = rt.alloc();
    assert_eq!(rt;
        seen(alloc, &[], event(alloc, None)?, &[Step::Event(0)])?,
        GOES
    );
    assert_eq!(rt;
        seen(alloc, &[Step::Event(0)], event(alloc, None)?, &[])?,
        GOES
    );
    assert_eq!(rt;
        seen(alloc, &[], event(alloc, None)?, &[Step::Other(3)])?,
        HELD
    );
    let stale = [Step::Event(0), Step::Close];
    assert_eq!(rt; seen(alloc, &stale, event(alloc, None)?, &[])?, HELD);
    let closes = [Step::Close, Step::Other(1), Step::Close];
    assert_eq!(rt;
        seen(alloc, &[], event(alloc, Some(3))?, &closes)?,
        (false, Some(1), false)
    );
    assert_eq!(rt;
        seen(alloc, &[], event(alloc, Some(2))?, &closes)?,
        (true, Some(0), false)
    );
    Ok(())
}

#[test]
fn values(rt: HostRuntime) -> Result<(), Fail> {
    let alloc = rt.alloc();
    assert_eq!(rt; seen(alloc, &[], second_value(), &[Step::Event(1)])?, HELD);
    let two = [Step::Event(0), Step::Event(1), Step::Event(2)];
    assert_eq!(rt; seen(alloc, &[], second_value(), &two)?, GOES);
    assert_eq!(rt; seen(alloc, &[], second_value(), &[Step::Event(5)])?, GOES);
    assert_eq!(rt; seen(alloc, &[Step::Event(2)], second_value(), &[])?, GOES);
    assert_eq!(rt; seen(alloc, &[], second_value(), &[Step::Other(2)])?, HELD);
    let late = [Step::Event(1), Step::Close];
    assert_eq!(rt;
        seen(alloc, &[], second_value(), &late)?,
        (true, None, true)
    );
    Ok(())
}

#[test]
fn ends(rt: HostRuntime) -> Result<(), Fail> {
    let alloc = rt.alloc();
    assert_eq!(rt; seen(alloc, &[], join(None), &[Step::Ended(OTHER)])?, HELD);
    assert_eq!(rt; seen(alloc, &[], join(None), &[Step::Ended(JOINED)])?, GOES);
    let before = [Step::Ended(OTHER), Step::Ended(JOINED), Step::Close];
    assert_eq!(rt; seen(alloc, &before, join(None), &[])?, GOES);
    assert_eq!(rt;
        seen(alloc, &[], join(Some(1)), &[Step::Close])?,
        (true, Some(0), false)
    );
    Ok(())
}
