//! The orders of a batch (docs/SEMANTICS.md, "Apply").

ghost use Rattle.std.specs.Prelude.{◌≡◌, [], length, IfOk, OnOk};
ghost use Rattle.loft_board.specs.Board.{no_events, generate as generate_on};
ghost use Rattle.loft_orders.specs.declared.order.Mark.TheVariants as mark;
ghost use Rattle.loft_sense.specs.Apply.{marked, with_last, ended_by, apply_order, apply_orders, new_thread as new_thread_of};
ghost use Rattle.loft_instant.specs.Positions.{IsPosition};

use loft_base::{EventId, ModuleId, NoMemory, SchedId, Sequence, ThreadId, TryClone, Value};
use loft_board::Board;
use loft_effect::{first_values, same_thread, tell_end};
use loft_ended::Ended as EndedThreads;
use loft_orders::{End, Ended, Ends, Frame, Mark, Marks, Order, Sents, Thread, Wait};
use loft_passes::Runner;
use loft_sense::MAX_LINKED;
use loft_tree::{Heads, Place};
use std::alloc::Global;

/// A scheduler while it applies a batch.
#[derive(Drop)]
pub struct Batch {
    pub linked: Vec<Runner>,
    pub known: EndedThreads,
    /// How many events there are.
    pub events: u32,
    pub board: Board,
    pub marks: Marks,
    pub stopped: Ends,
    pub sent: Sents,
    ghost whole: { length board ≡ events },
}

/// The index of the first thread with this id.
fn position(linked: &[Runner], thread: ThreadId) -> Option<usize>
    ensures { IsPosition result thread linked.now }
{
    for (index, runner) in linked.iter().enumerate() {
        if same_thread(thread, runner.thread.id) {
            return Some(index);
        }
    }
    None
}

/// A thread that hasn't run.
pub fn new_thread(
    alloc: Global,
    heads: &Heads,
    thread: ThreadId,
    module: ModuleId,
    args: &[Value],
) -> Result<Thread, NoMemory>
    ensures { IfOk result (λ t. t ≡ new_thread_of heads.now thread «module» args.now) }
{
    let args = Sequence::from_slice(alloc, args)?;
    let values = first_values(heads, thread, module, args)?;
    let mut frames = Vec::with_capacity(alloc, 1)?;
    frames.push(Frame {
        module,
        stop: 0,
        counts: Sequence::new(alloc),
        values,
    })?;
    Ok(Thread {
        id: thread,
        code: 0,
        mask: 0,
        wait: Wait::New,
        frames: Sequence::from_vec(frames),
    })
}

impl Batch {
    ghost use Rattle.loft_passes.specs.View.{standings_of};
    ghost use Rattle.loft_instant.specs.Batches.{applied_of, suspended_by};
    ghost use Rattle.loft_orders.specs.declared.order.Order.TheVariants as order;

    /// A scheduler with these threads, before the first order.
    pub fn new(
        alloc: Global,
        linked: Vec<Runner>,
        known: EndedThreads,
        events: u32,
        board: Board,
    ) -> Batch
        requires events { length board ≡ events }
        requires empty { board ≡ no_events events }
        ensures { applied_of result ≡ record {
          linked = standings_of linked.items;
          known = known;
          board = no_events events;
          marks = [];
          stopped = [];
          sent = [];
        } }
    {
        Batch {
            linked,
            known,
            events,
            board,
            marks: Sequence::new(alloc),
            stopped: Sequence::new(alloc),
            sent: Sequence::new(alloc),
        }
    }

    /// This order has become that.
    fn mark(&mut self, mark: Mark) -> Result<(), NoMemory>
        ensures { OnOk result (applied_of self.new ≡ marked mark (applied_of self.old)) }
    {
        self.marks.push(mark)
    }

    /// The last in the list.
    fn link(&mut self, thread: Thread) -> Result<(), NoMemory>
        ensures { OnOk result (applied_of self.new
            ≡ record (applied_of self.old) {
              linked = with_last thread (standings_of self.old.linked.items);
            }) }
    {
        self.linked.push(Runner::new(thread))?;
        Ok(())
    }

    /// This order has ended a thread.
    fn end(
        &mut self,
        scheduler: SchedId,
        thread: ThreadId,
        end: End,
        mark: Mark,
    ) -> Result<(), NoMemory>
        ensures { OnOk result (applied_of self.new
            ≡ ended_by scheduler thread end mark (applied_of self.old)) }
    {
        let index = self.marks.len() as u64;
        self.known.push(thread)?;
        self.marks.push(mark)?;
        self.stopped.push(Ended { index, thread, end })?;
        self.sent
            .push(tell_end(Place::Sched(scheduler), thread, end))
    }

    /// A thread is created, or has ended where too many are linked.
    fn create(
        &mut self,
        alloc: Global,
        heads: &Heads,
        scheduler: SchedId,
        thread: ThreadId,
        module: ModuleId,
        args: &[Value],
    ) -> Result<(), NoMemory>
        ensures { OnOk result (applied_of self.new
            ≡ apply_order heads.now scheduler (applied_of self.old)
            (order.Create thread «module» args.now)) }
    {
        if self.linked.len() < MAX_LINKED {
            let thread = new_thread(alloc, heads, thread, module, args)?;
            self.link(thread)?;
            return self.mark(Mark::Done);
        }
        self.end(scheduler, thread, End::Full, Mark::Full)
    }

    /// A thread is stopped, where it is linked.
    fn stop(&mut self, heads: &Heads, scheduler: SchedId, thread: ThreadId) -> Result<(), NoMemory>
        ensures { OnOk result (applied_of self.new
            ≡ apply_order heads.now scheduler (applied_of self.old) (order.Stop thread)) }
    {
        match position(self.linked.as_slice(), thread) {
            Some(index) => {
                self.linked.remove(index);
                self.end(scheduler, thread, End::Stopped, Mark::Done)
            }
            None => self.mark(Mark::Void),
        }
    }

    /// A thread is suspended, or isn't any more, where it is linked.
    fn suspend(&mut self, thread: ThreadId, suspended: bool) -> Result<(), NoMemory>
        ensures { OnOk result (applied_of self.new
            ≡ suspended_by thread suspended (applied_of self.old)) }
    {
        match position(self.linked.as_slice(), thread) {
            Some(index) => {
                self.linked[index].suspend(suspended);
                self.mark(Mark::Done)
            }
            None => self.mark(Mark::Void),
        }
    }

    /// The event is present, with one more value where there is one.
    fn broadcast(
        &mut self,
        alloc: Global,
        event: EventId,
        value: Option<i64>,
    ) -> Result<(), NoMemory>
        ensures { OnOk result (applied_of self.new
            ≡ marked mark.Done (record (applied_of self.old) {
              board = generate_on event value self.old.board;
            })) }
    {
        if event.0 < self.events {
            match value {
                None => self.board.generate(event),
                Some(v) => self.board.generate_value(alloc, event, v)?,
            }
        }
        self.mark(Mark::Done)
    }

    /// One order.
    fn apply(
        &mut self,
        alloc: Global,
        heads: &Heads,
        scheduler: SchedId,
        order: &Order,
    ) -> Result<(), NoMemory>
        ensures { OnOk result (applied_of self.new
            ≡ apply_order heads.now scheduler (applied_of self.old) order.now) }
    {
        match order {
            Order::Create {
                thread,
                module,
                args,
            } => self.create(alloc, heads, scheduler, *thread, *module, args.as_slice()),
            Order::Arrive(thread) => {
                self.link(thread.as_thread().try_clone(alloc)?)?;
                self.mark(Mark::Done)
            }
            Order::Stop(thread) => self.stop(heads, scheduler, *thread),
            Order::Suspend(thread) => self.suspend(*thread, true),
            Order::Resume(thread) => self.suspend(*thread, false),
            Order::Broadcast { event, value } => self.broadcast(alloc, *event, *value),
            Order::Ended { thread, end: _ } => {
                self.known.push(*thread)?;
                self.mark(Mark::Done)
            }
        }
    }

    /// The orders of a batch, one after the other.
    pub fn apply_all(
        &mut self,
        alloc: Global,
        heads: &Heads,
        scheduler: SchedId,
        orders: &[Order],
    ) -> Result<(), NoMemory>
        ensures { OnOk result (applied_of self.new
            ≡ apply_orders heads.now scheduler (applied_of self.old) orders.now) }
    {
        for order in orders {
            self.apply(alloc, heads, scheduler, order)?;
        }
        Ok(())
    }
}
