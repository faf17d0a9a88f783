//! What waits before the first entry: the creates of the source's starts.

ghost use Rattle.std.specs.Prelude.{◌≡◌, [], ◌∷◌, ◌++◌, length, IfOk, OnOk};
ghost use Rattle.loft_base.specs.declared.ids.Maker.TheVariants.{Source};
ghost use Rattle.loft_orders.specs.declared.order.Order.TheVariants.{Create};
ghost use Rattle.loft_history.specs.History.{starts_of};
ghost use Rattle.loft_sense.specs.Heads.{scheduler};
ghost use Rattle.loft_world.specs.State.{AreEach};

use loft_base::{Maker, NoMemory, Sequence, ThreadId};
use loft_orders::{Order, Orders, SharedValues};
use loft_tree::{Heads, Start};
use std::alloc::Global;

/// Adds the create of a start, by its number in the text.
fn add_create(
    orders: &mut Orders,
    alloc: Global,
    number: u64,
    start: &Start,
) -> Result<(), NoMemory>
    ensures { OnOk result (orders.new ≡ orders.old
        ++ Create (record { maker = Source; seq = number }) start.now.«module» start.now.arguments
        ∷ []) }
{
    let args = SharedValues::from_slice(alloc, start.arguments.as_slice())?;
    orders.push(Order::Create {
        thread: ThreadId {
            maker: Maker::Source,
            seq: number,
        },
        module: start.module,
        args,
    })
}

/// The creates of the starts of a scheduler, by its index, in text order.
fn starts_at(alloc: Global, heads: &Heads, at: usize) -> Result<Orders, NoMemory>
    ensures { IfOk result (λ orders. orders ≡ starts_of heads.now (scheduler at)) }
{
    let mut orders = Sequence::new(alloc);
    for (k, start) in heads.starts.as_slice().iter().enumerate() {
        if at == start.scheduler.0 as usize {
            add_create(&mut orders, alloc, k as u64, start)?;
        }
    }
    Ok(orders)
}

/// What waits for each scheduler at first.
pub(crate) fn starts_of_each(alloc: Global, heads: &Heads) -> Result<Vec<Orders>, NoMemory>
    ensures { IfOk result (λ waits. AreEach (λ k. starts_of heads.now (scheduler k))
        (length heads.now.schedulers) waits.items) }
{
    let mut waits = Vec::new(alloc);
    for at in 0..heads.schedulers.len() {
        waits.push(starts_at(alloc, heads, at)?)?;
    }
    Ok(waits)
}
