//! The orders that people at the office give. Each may wait for the world; out of memory, nothing is
//! ordered.

ghost use Rattle.std.specs.Prelude.{◌<◌, length};
ghost use Rattle.loft_tree.specs.Fits.{Each};
ghost use Rattle.loft_sense.specs.Fits.{IsValue};
ghost use Rattle.loft_host.specs.Callers.{IsAtWork, GoesOn};

use loft_base::{EventId, Maker, ModuleId, NoMemory, SchedId, ThreadId, Value};
use loft_baton::{Baton, Pass};
use loft_code::Code;
use loft_ft::{
    Receipt, events_have_schedulers, ft_scheduler_broadcast, ft_scheduler_broadcast_value,
    ft_scheduler_resume, ft_scheduler_stop, ft_scheduler_suspend, ft_thread_create,
};
use loft_tree::Control;
use std::alloc::Global;
use std::sync::Wait;

/// The scheduler of the source.
const DESK: SchedId = SchedId(0);

/// A thread that a caller made: the caller, and the thread's number among those that it made.
#[derive(Clone, Copy)]
pub(crate) struct Made {
    client: u32,
    seq: u64,
}

/// Creates a thread of a module with these arguments. None where the source has no such module.
pub(crate) fn create<R: Wait>(
    rt: &R,
    alloc: Global,
    b: &Baton,
    c: &Code,
    p: &mut Pass,
    m: ModuleId,
    args: &[Value],
) -> Result<Option<Made>, NoMemory>
    requires at_work { IsAtWork b.now c.now p.old }
    requires values { Each (IsValue c.now.heads) args.now }
    ensures { GoesOn b.now c.now p.old p.new }
{
    if !c.heads().fits(DESK, m, args) {
        return Ok(None);
    }
    let (_receipt, thread) = ft_thread_create(rt, alloc, b, p, DESK, m, args)?;
    match thread.maker {
        Maker::Client(client) => Ok(Some(Made {
            client,
            seq: thread.seq,
        })),
        _ => Ok(None),
    }
}

/// Broadcasts an event of the source, with a value or without.
pub(crate) fn broadcast<R: Wait>(
    rt: &R,
    alloc: Global,
    b: &Baton,
    c: &Code,
    p: &mut Pass,
    e: EventId,
    value: Option<i64>,
) -> Result<Receipt, NoMemory>
    requires at_work { IsAtWork b.now c.now p.old }
    requires event { e.0 < length c.now.heads.events }
    ensures { GoesOn b.now c.now p.old p.new }
{
    events_have_schedulers(c);
    match value {
        Some(value) => ft_scheduler_broadcast_value(rt, alloc, b, p, e, value),
        None => ft_scheduler_broadcast(rt, alloc, b, p, e),
    }
}

/// Stops, suspends or resumes a thread that a caller made.
pub(crate) fn control<R: Wait>(
    rt: &R,
    alloc: Global,
    b: &Baton,
    c: &Code,
    p: &mut Pass,
    control: Control,
    made: Made,
) -> Result<Receipt, NoMemory>
    requires at_work { IsAtWork b.now c.now p.old }
    requires desk { 0 < length c.now.heads.schedulers }
    ensures { GoesOn b.now c.now p.old p.new }
{
    let _code = c;
    let t = ThreadId {
        maker: Maker::Client(made.client),
        seq: made.seq,
    };
    match control {
        Control::Stop => ft_scheduler_stop(rt, alloc, b, p, DESK, t),
        Control::Suspend => ft_scheduler_suspend(rt, alloc, b, p, DESK, t),
        Control::Resume => ft_scheduler_resume(rt, alloc, b, p, DESK, t),
    }
}
