//! The threads that leave an instant (docs/SEMANTICS.md, "Instant").

ghost use Rattle.std.specs.Prelude.{◌≡◌, [], ◌∷◌, ◌++◌, IfOk, OnOk};
ghost use Rattle.loft_orders.specs.declared.order.Order.TheVariants.{Arrive};

use loft_base::NoMemory;
use loft_orders::{Order, Sent, Sents, Thread, ThreadGroup, To};
use std::alloc::Global;
use std::marker::Model;

/// The threads that leave an instant, each with its address. They go into memory together. Contracts
/// see what they send.
#[derive(Drop)]
pub struct Leavers {
    threads: Vec<Thread>,
    to: Vec<To>,
}

impl Model for Leavers {
    ghost use Rattle.std.specs.Prelude.{◌≡◌, List, length};
    ghost use Rattle.loft_orders.specs.declared.order.Sent.{Sent};
    ghost use Rattle.loft_passes.specs.Leavers.{sends_of};

    ghost Value = { List Sent };

    ghost view = { λ leavers. sends_of leavers.to.items leavers.threads.items };

    ghost invariant = { λ leavers. length leavers.to.items ≡ length leavers.threads.items };
}

impl Leavers {
    /// None so far, with room for so many.
    pub fn with_capacity(alloc: Global, count: usize) -> Result<Leavers, NoMemory>
        ensures { IfOk result (λ leavers. leavers ≡ []) }
    {
        Ok(Leavers {
            threads: Vec::with_capacity(alloc, count)?,
            to: Vec::with_capacity(alloc, count)?,
        })
    }

    /// One more thread leaves.
    pub fn push(&mut self, thread: Thread, to: To) -> Result<(), NoMemory>
        ensures { OnOk result (self.new
            ≡ self.old ++ record { to = to; order = Arrive thread } ∷ []) }
    {
        self.to.reserve(1)?;
        self.threads.push(thread)?;
        self.to.push_reserved(to);
        Ok(())
    }

    /// Each thread sends itself to its address.
    pub fn send(self, alloc: Global, sent: &mut Sents) -> Result<(), NoMemory>
        ensures { OnOk result (sent.new ≡ sent.old ++ self) }
    {
        let Leavers { threads, to } = self;
        if to.is_empty() {
            return Ok(());
        }
        let group = ThreadGroup::new(alloc, threads)?;
        sent.reserve(to.len())?;
        for (index, to) in to.iter().enumerate() {
            let order = Order::Arrive(group.share(index)?);
            sent.push(Sent { to: *to, order })?;
        }
        Ok(())
    }
}
