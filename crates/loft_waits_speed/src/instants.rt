//! Threads that wait, and instants of one more.

ghost use Rattle.std.specs.Prelude.{◌≡◌, ◌<◌, ◌≤◌, ◌+◌, ◌^◌, None, length, IfOk, OnOk};
ghost use Rattle.loft_waits.specs.Told.{wait_at};

use loft_base::{EventId, Maker, NoMemory, ThreadId};
use loft_orders::{Events, Wait};
use loft_waits::Waits;
use std::alloc::Global;

/// What the thread at a position waits for: an event or the end of a thread, which don't come, so many instants that they
/// don't end here, or nothing that can come.
fn wait_of(alloc: Global, pos: u32) -> Result<Wait, NoMemory> {
    match pos % 4 {
        0 => Ok(Wait::Events {
            events: Events::from_slice(alloc, &[EventId(1)])?,
            left: Some(1_000_000_000_000),
        }),
        1 => Ok(Wait::Join {
            thread: ThreadId {
                maker: Maker::Source,
                seq: pos as u64,
            },
            left: None,
        }),
        2 => Ok(Wait::Coop(1_000_000_000_000)),
        _ => Ok(Wait::Halt),
    }
}

/// One more position, at which a thread waits so.
fn one_more(waits: &mut Waits, alloc: Global, pos: u32) -> Result<(), NoMemory>
    requires after { length waits.old.waits ≡ pos }
    ensures more { OnOk result (length waits.new.waits ≡ pos + 1) }
    ensures events { OnOk result (length waits.new.counts ≡ length waits.old.counts) }
    ensures closes { OnOk result (waits.new.closes ≡ waits.old.closes) }
{
    let wait = wait_of(alloc, pos)?;
    waits.grow()?;
    waits.add(alloc, pos as usize, &wait)
}

/// The waits of so many threads, over two events, and one position more, at which nobody waits.
pub(crate) fn waiting(alloc: Global, threads: u32) -> Result<Waits, NoMemory>
    ensures positions { IfOk result (λ w. length w.waits ≡ threads + 1) }
    ensures free { IfOk result (λ w. wait_at w threads ≡ None) }
    ensures events { IfOk result (λ w. length w.counts ≡ 2) }
    ensures closes { IfOk result (λ w. w.closes ≡ 0) }
{
    let mut waits = Waits::new(alloc, 2)?;
    'threads: for pos in 0..threads {
        one_more(&mut waits, alloc, pos)?;
    }
    waits.grow()?;
    Ok(waits)
}

/// An instant: the thread at the position runs, generates an event and cooperates. Answers whether it alone went, and is
/// the next one in the next instant.
fn instant(alloc: Global, waits: &mut Waits, pos: usize) -> Result<bool, NoMemory>
    requires within { pos < length waits.old.waits }
    requires events { length waits.old.counts ≡ 2 }
    requires few { waits.old.closes < 2 ^ 62 }
    ensures within { OnOk result (length waits.new.waits ≡ length waits.old.waits) }
    ensures events { OnOk result (length waits.new.counts ≡ 2) }
    ensures closes { OnOk result (waits.new.closes ≤ waits.old.closes + 1) }
{
    waits.remove(pos);
    waits.on_event(EventId(0), 1);
    waits.add(alloc, pos, &Wait::Coop(1))?;
    if waits.next_after(pos).is_some() {
        return Ok(false);
    }
    waits.close();
    Ok(waits.next_after(usize::MAX) == Some(pos))
}

/// Makes so many instants. Answers whether in each the thread at the position alone went.
pub(crate) fn make_instants(
    alloc: Global,
    waits: &mut Waits,
    pos: usize,
    instants: u32,
) -> Result<bool, NoMemory>
    requires within { pos < length waits.old.waits }
    requires events { length waits.old.counts ≡ 2 }
    requires start { waits.old.closes ≡ 0 }
{
    let mut alone = true;
    'instants: for _ in 0..instants {
        let went = instant(alloc, waits, pos)?;
        alone = alone && went;
    }
    Ok(alone)
}
