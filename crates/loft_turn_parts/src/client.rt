//! The orders of the source's clients, as they are sent.

ghost use Rattle.std.specs.Prelude.{◌≡◌, ◌∷◌, [], ◌+◌, ◌^◌, ◌<◌, drop, IfOk, IsTrue, is_some, slice_get};
ghost use Rattle.std.specs.Option.{option_map};
ghost use Rattle.loft_tree.specs.Fits.{Each};
ghost use Rattle.loft_history.specs.Clients.{orders_from, orders_of};
ghost use Rattle.loft_sense.specs.Statements.{order_of as order_by};
ghost use Rattle.loft_turn_parts.specs.Clients.{orders_at, HasEvent};

use loft_base::{Maker, NoMemory, ThreadId};
use loft_orders::{Order, Sent, SharedValues, To};
use loft_tree::{ClientOrder, Control, Heads};
use std::alloc::Global;

/// The order that stops, suspends or resumes a thread.
fn control_of(control: Control, thread: ThreadId) -> Order
    ensures { result ≡ order_by control thread }
{
    match control {
        Control::Stop => Order::Stop(thread),
        Control::Suspend => Order::Suspend(thread),
        Control::Resume => Order::Resume(thread),
    }
}

/// A client's order as it is sent, where its next create is this one, counted from 0.
fn sent_of(
    alloc: Global,
    heads: &Heads,
    client: u32,
    create: u64,
    order: &ClientOrder,
) -> Result<Sent, NoMemory>
    requires event { HasEvent heads.now order.now }
    ensures { IfOk result (λ sent. orders_from heads.now client create (order.now ∷ [])
        ≡ sent ∷ []) }
{
    Ok(match order {
        ClientOrder::Create {
            scheduler,
            module,
            arguments,
        } => Sent {
            to: To::Sched(*scheduler),
            order: Order::Create {
                thread: ThreadId {
                    maker: Maker::Client(client),
                    seq: create,
                },
                module: *module,
                args: SharedValues::from_slice(alloc, arguments.as_slice())?,
            },
        },
        ClientOrder::Control {
            control,
            thread,
            scheduler,
        } => Sent {
            to: To::Sched(*scheduler),
            order: control_of(*control, *thread),
        },
        ClientOrder::Broadcast { event, value } => Sent {
            to: To::Sched(heads.events[event.0 as usize].scheduler),
            order: Order::Broadcast {
                event: *event,
                value: *value,
            },
        },
    })
}

/// The order of a client at this index, counted from 0. None where the client has no more orders,
/// and for a client that isn't declared.
fn order_of(heads: &Heads, client: u32, index: usize) -> Option<&ClientOrder>
    ensures order { option_map (λ order. order.now) result
        ≡ slice_get (orders_of heads.now client) index }
    ensures next { IsTrue (is_some result) → index + 1 < 2 ^ 64 }
{
    let client = heads.clients.as_slice().get(client as usize)?;
    client.orders.as_slice().get(index)
}

/// The order of a client at this index, counted from 0, as it is sent, where so many of the orders
/// before it are creates. None where the client has no more orders, and for a client that isn't
/// declared. It needs no world.
pub fn next_order(
    alloc: Global,
    heads: &Heads,
    client: u32,
    index: usize,
    creates: u64,
) -> Result<Option<Sent>, NoMemory>
    requires events { Each (HasEvent heads.now) (drop index (orders_of heads.now client)) }
    ensures order { IfOk result (λ sent.
        sent ≡ slice_get (orders_at heads.now client index creates) 0) }
    ensures next { IfOk result (λ sent. IsTrue (is_some sent) → index + 1 < 2 ^ 64) }
{
    let Some(order) = order_of(heads, client, index) else {
        return Ok(None);
    };
    let sent = sent_of(alloc, heads, client, creates, order)?;
    Ok(Some(sent))
}
