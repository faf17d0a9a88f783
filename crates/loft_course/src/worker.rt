//! One worker in a run.

ghost use Rattle.std.specs.Prelude.{◌≡◌, ◌<◌, [], ℕ, false, IfOk, OnOk};
ghost use Rattle.loft_sense.specs.Machine.{heads as heads_of};
ghost use Rattle.loft_history.specs.History.{PickBy, PostBy, ends_block, unposted, is_busy};
ghost use Rattle.loft_course.specs.Blocks.{IsHand};
ghost use Rattle.loft_course.specs.Course.{Moves, hand_after};

use crate::block_engine::BlockEngine;
use crate::setting::Setting;
use loft_base::NoMemory;
use loft_orders::Order;
use loft_world::World;
use std::alloc::Global;
use std::marker::{Model, PhantomData};

/// A worker in a run: what runs its blocks, and whether it has a job in hand, after a pick and
/// before the last post of that job.
#[derive(Drop)]
pub struct Worker<X: Setting, B: BlockEngine> {
    engine: B,
    busy: bool,
    of: PhantomData<X>,
}

impl<X: Setting, B: BlockEngine> Model for Worker<X, B> {
    ghost use Rattle.std.specs.Prelude.{◌≡◌};
    ghost use Rattle.loft_course.specs.Course.{Hand};

    ghost Value = { Hand };

    ghost view = { λ w. record { left = B.left w.engine; busy = w.busy } };

    ghost invariant = { λ w. (B.program w.engine ≡ X.program) × (B.bound w.engine ≡ X.options.limits.block) };
}

/// Whether an order is the last of an unlinked block.
fn ends_block(order: &Order) -> bool
    ensures { result ≡ ends_block order.now }
{
    matches!(order, Order::Arrive(_) | Order::Ended { .. })
}

impl<X: Setting, B: BlockEngine> Worker<X, B> {
    /// A worker before its first job, with an engine that has begun no block.
    pub fn new(engine: B) -> Worker<X, B>
        requires program { B.program engine ≡ X.program }
        requires bound { B.bound engine ≡ X.options.limits.block }
        requires fresh { B.left engine ≡ [] }
        ensures { (w : ℕ) → result ≡ hand_after X.program X.options [] w }
    {
        Worker {
            engine,
            busy: false,
            of: PhantomData,
        }
    }

    /// Picks the thread that has waited longest and begins its block, where the worker has no job in
    /// hand and one waits. Answers whether it has picked one.
    pub(crate) fn pick(
        &mut self,
        alloc: Global,
        w: u32,
        world: &mut World,
    ) -> Result<bool, NoMemory>
        requires declared { w < X.options.workers }
        requires hand { self.old ≡ hand_after X.program X.options world.old.history w }
        requires whole { IsHand (heads_of X.program) (is_busy w world.old.history)
            (unposted X.program X.options w world.old.history) }
        ensures hand { OnOk result
            (self.new ≡ hand_after X.program X.options world.new.history w) }
        ensures moves { IfOk result (λ moved. Moves X.program X.options world.old.history
            (PickBy w) moved world.new.history) }
        ensures heads { OnOk result (world.new.heads ≡ world.old.heads) }
    {
        if self.busy {
            return Ok(false);
        }
        let Some(thread) = world.pick(alloc, w)? else {
            return Ok(false);
        };
        self.engine.begin(thread);
        self.busy = true;
        Ok(true)
    }

    /// Posts the next order of the job in hand, where there is one. Answers whether there was.
    pub(crate) fn post(
        &mut self,
        alloc: Global,
        w: u32,
        world: &mut World,
    ) -> Result<bool, NoMemory>
        requires declared { w < X.options.workers }
        requires hand { self.old ≡ hand_after X.program X.options world.old.history w }
        requires whole { IsHand (heads_of X.program) (is_busy w world.old.history)
            (unposted X.program X.options w world.old.history) }
        ensures hand { OnOk result
            (self.new ≡ hand_after X.program X.options world.new.history w) }
        ensures moves { IfOk result (λ moved. Moves X.program X.options world.old.history
            (PostBy w) moved world.new.history) }
        ensures heads { OnOk result (world.new.heads ≡ world.old.heads) }
    {
        if !self.busy {
            return Ok(false);
        }
        let Some(sent) = self.engine.next(alloc)? else {
            return Ok(false);
        };
        let ends = ends_block(&sent.order);
        let posted = world.post(alloc, w, &sent);
        drop(sent);
        posted?;
        self.busy = !ends;
        Ok(true)
    }
}
