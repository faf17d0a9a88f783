//! What a caller asks for, and the entry that it makes of that.

ghost use Rattle.std.specs.Prelude.{◌≡◌, IfOk, OnOk, OnErr, length};
ghost use Rattle.loft_orders.specs.declared.entry.Entry.TheVariants as entry;
ghost use Rattle.loft_history.specs.Clients.{made_by};
ghost use Rattle.loft_history.specs.History.{creates};
ghost use Rattle.loft_sense.specs.Statements.{order_of as control_order};
ghost use Rattle.loft_world.specs.State.{with_entry};
ghost use Rattle.loft_ft.specs.Calls.{IsDeclared, sent_of};

use crate::receipt::Receipt;
use loft_base::{EventId, Maker, ModuleId, NoMemory, SchedId, ThreadId, Value};
use loft_orders::{Order, Sent, SharedValues, To};
use loft_tree::Control;
use loft_world::World;
use std::alloc::Global;

/// What a caller asks of a scheduler.
#[derive(Clone, Copy)]
pub(crate) enum Call<'a> {
    /// A thread of the module, which begins in the scheduler with these arguments.
    Create {
        s: SchedId,
        m: ModuleId,
        args: &'a [Value],
    },
    /// An order of one kind about a thread.
    Control {
        control: Control,
        s: SchedId,
        t: ThreadId,
    },
    /// An event is made present, with a value or without, by the scheduler on whose board it stands.
    Broadcast {
        e: EventId,
        value: Option<i64>,
    },
}

/// The order that stops, suspends or resumes a thread.
fn control_of(control: Control, t: ThreadId) -> Order
    ensures { result ≡ control_order control t }
{
    match control {
        Control::Stop => Order::Stop(t),
        Control::Suspend => Order::Suspend(t),
        Control::Resume => Order::Resume(t),
    }
}

/// The order of a call with its address, where the caller's next create makes this thread.
fn sent_of(alloc: Global, world: &World, next: ThreadId, call: Call<'_>) -> Result<Sent, NoMemory>
    requires declared { IsDeclared call world.now.heads }
    ensures { IfOk result (λ sent. sent ≡ sent_of world.now.heads next call.entry) }
{
    Ok(match call {
        Call::Create { s, m, args } => Sent {
            to: To::Sched(s),
            order: Order::Create {
                thread: next,
                module: m,
                args: SharedValues::from_slice(alloc, args)?,
            },
        },
        Call::Control { control, s, t } => Sent {
            to: To::Sched(s),
            order: control_of(control, t),
        },
        Call::Broadcast { e, value } => Sent {
            to: To::Sched(world.home(e)),
            order: Order::Broadcast { event: e, value },
        },
    })
}

/// Adds the entry of a caller's call to the world. The answer has the thread that the caller's next
/// create made or makes, too. Out of memory, nothing is added.
pub(crate) fn add(
    alloc: Global,
    world: &mut World,
    caller: u32,
    call: Call<'_>,
) -> Result<(Receipt, ThreadId), NoMemory>
    requires declared { IsDeclared call world.old.heads }
    ensures stamp { IfOk result (λ r. r.0.stamp ≡ length world.new.history) }
    ensures next { IfOk result (λ r. r.1 ≡ made_by caller (creates caller world.old.history)) }
    ensures ok { OnOk result (world.new ≡ with_entry world.old (entry.Client caller
        (sent_of world.old.heads (made_by caller (creates caller world.old.history))
        call.entry))) }
    ensures err { OnErr result (world.new ≡ world.old) }
{
    let next = ThreadId {
        maker: Maker::Client(caller),
        seq: world.creates(caller),
    };
    let sent = sent_of(alloc, world, next, call)?;
    let stamp = world.client(alloc, caller, &sent)?;
    Ok((Receipt { stamp }, next))
}
