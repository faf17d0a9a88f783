//! What is told to waits over two events.

ghost use Rattle.std.specs.Prelude.{◌≡◌, ◌≤◌, ◌<◌, ◌+◌, length, OnOk};

use loft_base::{EventId, ThreadId};
use loft_waits::Waits;
use std::alloc::Global;
use std::test::Fail;

/// What is told.
#[derive(Drop)]
pub(crate) enum Step {
    /// Event 0 is present, with so many values.
    Event(usize),
    /// Event 1 is present, with so many values.
    Other(usize),
    /// The thread has ended.
    Ended(ThreadId),
    /// The instant closes.
    Close,
}

/// Tells one step. The instant closes only where nobody can go.
fn tell(alloc: Global, waits: &mut Waits, step: &Step) -> Result<(), Fail>
    requires events { length waits.old.counts ≡ 2 }
    requires few { waits.old.closes < 1000 }
    ensures events { OnOk result (length waits.new.counts ≡ 2) }
    ensures closes { OnOk result (waits.new.closes ≤ waits.old.closes + 1) }
    ensures positions { OnOk result (length waits.new.waits ≡ length waits.old.waits) }
{
    match step {
        Step::Event(count) => waits.on_event(EventId(0), *count),
        Step::Other(count) => waits.on_event(EventId(1), *count),
        Step::Ended(thread) => waits.on_ended(alloc, *thread)?,
        Step::Close => {
            if waits.next_after(usize::MAX).is_some() {
                return Err("somebody can go at the close".into());
            }
            waits.close();
        }
    }
    Ok(())
}

/// Tells these steps, in this order.
pub(crate) fn tell_all(alloc: Global, waits: &mut Waits, steps: &[Step]) -> Result<(), Fail>
    requires events { length waits.old.counts ≡ 2 }
    requires few { waits.old.closes + length steps.now < 1000 }
    ensures events { OnOk result (length waits.new.counts ≡ 2) }
    ensures closes { OnOk result (waits.new.closes ≤ waits.old.closes + length steps.now) }
    ensures positions { OnOk result (length waits.new.waits ≡ length waits.old.waits) }
{
    for step in steps {
        tell(alloc, waits, step)?;
    }
    Ok(())
}
