//! The linked threads as an instant closes.

ghost use Rattle.std.specs.Prelude.{◌≡◌, ◌<◌, ◌+◌, ◌^◌, ◌++◌, ◌∷◌, [], Some, true, map, filter, length, slice_get, IfOk, OnOk};
ghost use Rattle.std.specs.List.{flat_map};
ghost use Rattle.loft_orders.specs.declared.order.Order.TheVariants.{Arrive};
ghost use Rattle.loft_sense.specs.Instant.{closed as closed_runner, closed_thread, stays, has_run, leavers};
ghost use Rattle.loft_sense.specs.Rest.{all_rest};
ghost use Rattle.loft_passes.specs.declared.runner.Runner.{Runner as ARunner};
ghost use Rattle.loft_passes.specs.View.{runners_of, is_held as is_held_by};
ghost use Rattle.loft_waits.specs.Told.{closed as closed_told, NobodyFrom};
ghost use Rattle.loft_line.specs.Line.{IsThreadAt, stands_if, leaves_if, thread_with as thread_with_of};

use crate::line::Line;
use crate::slots::empty;
use loft_base::{NoMemory, Sequence, TryClone, try_clone_all};
use loft_orders::{Order, Sent, Sents, SharedThread, Stop, Thread, Threads, To, Wait};
use std::alloc::Global;

/// A copy of a thread, with another wait where there is one.
fn copy_with(alloc: Global, thread: &Thread, wait: Option<Wait>) -> Result<Thread, NoMemory>
    ensures { IfOk result (λ t. t ≡ thread_with_of wait thread.now) }
{
    let wait = match wait {
        Some(wait) => wait,
        None => thread.wait.try_clone(alloc)?,
    };
    Ok(Thread {
        id: thread.id,
        code: thread.code,
        mask: thread.mask,
        wait,
        frames: try_clone_all(alloc, thread.frames.as_slice())?,
    })
}

/// A thread sends itself to an address.
fn send(alloc: Global, thread: Thread, to: To, sent: &mut Sents) -> Result<(), NoMemory>
    ensures { OnOk result (sent.new ≡ sent.old ++ record { to = to; order = Arrive thread } ∷ []) }
{
    let thread = SharedThread::new(alloc, thread)?;
    sent.push(Sent {
        to,
        order: Order::Arrive(thread),
    })
}

impl Line {
    ghost use Rattle.loft_line.specs.Line.{runners_in, standings_in, is_marked, IsLine, IsIdle, HasBegunAt, HasClosedAt, HasClosed, IsQuiet};

    /// A copy of the thread at a position, with the wait that is kept for it.
    pub fn thread_at(&self, alloc: Global, pos: usize) -> Result<Thread, NoMemory>
        requires within { pos < length self.now.slots.items }
        requires waits { pos < length self.now.waits.waits }
        ensures { IfOk result (λ t. IsThreadAt pos (runners_in self.now) t) }
    {
        let wait = self.waits.wait(alloc, pos)?;
        copy_with(alloc, &self.slots[pos].thread, wait)
    }

    /// The thread at a position is copied, where it ran.
    fn push_at(&self, alloc: Global, pos: usize, stands: &mut Threads) -> Result<(), NoMemory>
        requires within { pos < length self.now.slots.items }
        requires waits { pos < length self.now.waits.waits }
        ensures { OnOk result ((r : ARunner) → slice_get (runners_in self.now) pos ≡ Some r
            → is_held_by r.stop ≡ true → stands.new ≡ stands.old ++ stands_if r) }
    {
        if self.slots[pos].runs == 0 {
            return Ok(());
        }
        let thread = self.thread_at(alloc, pos)?;
        stands.push(thread)?;
        Ok(())
    }

    /// The thread at a position that is held is copied where it ran, and hasn't run from now on.
    fn close_held(
        &mut self,
        alloc: Global,
        pos: usize,
        stands: &mut Threads,
    ) -> Result<(), NoMemory>
        requires within { pos < length self.old.slots.items }
        requires waits { pos < length self.old.waits.waits }
        ensures begun { OnOk result (HasBegunAt pos self.old self.new) }
        ensures stands { OnOk result ((r : ARunner) → slice_get (runners_in self.old) pos ≡ Some r
            → is_held_by r.stop ≡ true → stands.new ≡ stands.old ++ stands_if r) }
    {
        self.push_at(alloc, pos, stands)?;
        self.slots[pos].begin(self.budget);
        Ok(())
    }

    /// The thread at a position closes: one that is held is copied where it ran, one that leaves is
    /// sent, and the place of one that has left or ended is empty.
    fn close_at(
        &mut self,
        alloc: Global,
        pos: usize,
        stands: &mut Threads,
        sent: &mut Sents,
    ) -> Result<(), NoMemory>
        requires line { IsLine self.old }
        requires marked { is_marked self.old.ran pos ≡ true }
        requires within { pos < length self.old.ran }
        ensures closed { OnOk result (HasClosedAt pos self.old self.new) }
        ensures stands { OnOk result ((r : ARunner) → slice_get (runners_in self.old) pos ≡ Some r
            → stands.new ≡ stands.old ++ stands_if r) }
        ensures sent { OnOk result ((r : ARunner) → slice_get (runners_in self.old) pos ≡ Some r
            → sent.new ≡ sent.old ++ leaves_if r) }
    {
        self.ran.clear(pos);
        match self.slots[pos].stop {
            Stop::Holds => {
                self.close_held(alloc, pos, stands)?;
                Ok(())
            }
            Stop::Leaves(to) => {
                self.held -= 1;
                let thread = empty(alloc, &mut self.slots, &mut self.finder, pos);
                send(alloc, thread, to, sent)?;
                Ok(())
            }
            Stop::Ends(_) => {
                self.held -= 1;
                empty(alloc, &mut self.slots, &mut self.finder, pos);
                Ok(())
            }
        }
    }

    /// Each thread that has run closes.
    fn close_marked(
        &mut self,
        alloc: Global,
        stands: &mut Threads,
        sent: &mut Sents,
    ) -> Result<(), NoMemory>
        requires line { IsLine self.old }
        ensures idle { OnOk result (IsIdle self.new) }
        ensures linked { OnOk result (standings_in (runners_in self.new)
            ≡ standings_in (runners_in self.old)) }
        ensures stands { OnOk result (stands.new
            ≡ stands.old ++ flat_map stands_if (runners_in self.old)) }
        ensures sent { OnOk result (sent.new ≡ sent.old ++ flat_map leaves_if (runners_in self.old)) }
        ensures keeps { OnOk result (HasClosed self.old self.new) }
    {
        let mut next = self.ran.next(0);
        'marks: while let Some(pos) = next {
            self.close_at(alloc, pos, stands, sent)?;
            next = self.ran.next(pos + 1);
        }
        self.ran.rest();
        Ok(())
    }

    /// The instant closes, where nobody can go any more. The answer is how the threads that ran and are
    /// still linked stand. Where so much was sent already, the threads that leave come after it.
    pub fn close(&mut self, alloc: Global, sent: &mut Sents) -> Result<Threads, NoMemory>
        requires line { IsLine self.old }
        requires over { NobodyFrom self.old.waits 0 }
        requires few { self.old.waits.closes + 1 < 2 ^ 63 }
        ensures idle { OnOk result (IsIdle self.new) }
        ensures linked { OnOk result (standings_in (runners_in self.new)
            ≡ map closed_runner (filter stays (runners_of (runners_in self.old)))) }
        ensures stands { IfOk result (λ stands. stands
            ≡ map closed_thread (filter has_run (filter stays (runners_of (runners_in self.old))))) }
        ensures sent { OnOk result (sent.new ≡ sent.old ++ leavers (runners_of (runners_in self.old))) }
        ensures told { OnOk result (self.new.waits ≡ closed_told self.old.waits) }
        ensures budget { OnOk result (self.new.budget ≡ self.old.budget) }
        ensures quiet { OnOk result (IsQuiet self.new) }
    {
        self.waits.close();
        let room = Vec::with_capacity(alloc, self.ran.count_hint())?;
        let mut stands = Sequence::from_vec(room);
        self.close_marked(alloc, &mut stands, sent)?;
        Ok(stands)
    }

    /// Whether each linked thread is suspended or waits for ever, where the last call was `close`.
    pub fn rests(&self) -> bool
        requires line { IsLine self.now }
        requires quiet { IsQuiet self.now }
        ensures { result ≡ all_rest (standings_in (runners_in self.now)) self.now.waits.ended }
    {
        !self.waits.any_alone()
    }
}
