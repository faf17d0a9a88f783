//! The orders of a batch (docs/SEMANTICS.md, "Apply").

ghost use Rattle.std.specs.Prelude.{◌≡◌, ◌+◌, ◌<◌, ◌≤◌, ◌++◌, ◌∷◌, [], length, OnOk};
ghost use Rattle.loft_board.specs.Board.{generate as generate_on};
ghost use Rattle.loft_orders.specs.declared.order.Mark.TheVariants as mark;
ghost use Rattle.loft_sense.specs.Apply.{marked, with_last, ended_by, apply_order, apply_orders};

use loft_base::{EventId, ModuleId, NoMemory, SchedId, Sequence, ThreadId, TryClone, Value};
use loft_board::Board;
use loft_count::Steps;
use loft_effect::tell_end;
use loft_ended::Ended as EndedThreads;
use loft_instant::new_thread;
use loft_line::Line;
use loft_orders::{End, Ended, Ends, Mark, Marks, Order, Sents, Thread};
use loft_sense::MAX_LINKED;
use loft_tree::{Heads, Place};
use loft_waits::counts_follow_the_board;
use std::alloc::Global;
use std::sync::ledger::Ledger;

/// A scheduler while it applies a batch.
#[derive(Drop)]
pub struct Batch {
    pub line: Line,
    pub known: EndedThreads,
    pub board: Board,
    pub marks: Marks,
    pub stopped: Ends,
    pub sent: Sents,
}

/// An event of a board is present, with one more value where there is one.
fn generate(
    alloc: Global,
    board: &mut Board,
    event: EventId,
    value: Option<i64>,
) -> Result<(), NoMemory>
    requires { event.0 < length board.old }
    ensures { OnOk result (board.new ≡ generate_on event value board.old) }
{
    match value {
        None => {
            board.generate(event);
            Ok(())
        }
        Some(v) => board.generate_value(alloc, event, v),
    }
}

impl Batch {
    ghost use Rattle.loft_line.specs.Line.{runners_in, standings_in, IsIdle};
    ghost use Rattle.loft_waits.specs.Told.{counts_of};
    ghost use Rattle.loft_line_engine.specs.Batches.{applied_of, suspended_by, IsSound, KeepsLine};
    ghost use Rattle.loft_orders.specs.declared.order.Order.TheVariants as order;

    /// A scheduler with these threads, before the first order.
    pub fn new(alloc: Global, line: Line, known: EndedThreads, board: Board) -> Batch
        requires idle { IsIdle line }
        requires counts { line.waits.counts ≡ counts_of board }
        requires ended { line.waits.ended ≡ known }
        ensures sound { IsSound result }
        ensures line { result.line ≡ line }
        ensures applied { applied_of result ≡ record {
          linked = standings_in (runners_in line);
          known = known;
          board = board;
          marks = [];
          stopped = [];
          sent = [];
        } }
    {
        Batch {
            line,
            known,
            board,
            marks: Sequence::new(alloc),
            stopped: Sequence::new(alloc),
            sent: Sequence::new(alloc),
        }
    }

    /// This order has become that.
    fn mark(&mut self, mark: Mark) -> Result<(), NoMemory>
        ensures { OnOk result (self.new
            ≡ record self.old { marks = self.old.marks ++ mark ∷ [] }) }
    {
        self.marks.push(mark)
    }

    /// A thread is known as ended.
    fn learn(&mut self, alloc: Global, thread: ThreadId) -> Result<(), NoMemory>
        requires sound { IsSound self.old }
        ensures sound { OnOk result (IsSound self.new) }
        ensures keeps { OnOk result (KeepsLine self.old.line self.new.line) }
        ensures applied { OnOk result (applied_of self.new
            ≡ record (applied_of self.old) { known = self.old.known ++ thread ∷ [] }) }
    {
        self.line.on_ended(alloc, thread)?;
        self.known.push(thread)
    }

    /// The last in the list.
    fn link(&mut self, thread: Thread) -> Result<(), NoMemory>
        requires sound { IsSound self.old }
        ensures sound { OnOk result (IsSound self.new) }
        ensures keeps { OnOk result (KeepsLine self.old.line self.new.line) }
        ensures applied { OnOk result (applied_of self.new
            ≡ marked mark.Done (record (applied_of self.old) {
              linked = with_last thread (standings_in (runners_in self.old.line));
            })) }
    {
        self.line.link(thread)?;
        self.mark(Mark::Done)
    }

    /// This order has ended a thread.
    fn end(
        &mut self,
        alloc: Global,
        scheduler: SchedId,
        thread: ThreadId,
        end: End,
        mark: Mark,
    ) -> Result<(), NoMemory>
        requires sound { IsSound self.old }
        ensures sound { OnOk result (IsSound self.new) }
        ensures keeps { OnOk result (KeepsLine self.old.line self.new.line) }
        ensures applied { OnOk result (applied_of self.new
            ≡ ended_by scheduler thread end mark (applied_of self.old)) }
    {
        let index = self.marks.len() as u64;
        self.learn(alloc, thread)?;
        self.marks.push(mark)?;
        self.stopped.push(Ended { index, thread, end })?;
        self.sent
            .push(tell_end(Place::Sched(scheduler), thread, end))
    }

    /// A thread is created, or has ended where too many are linked.
    fn create(
        &mut self,
        alloc: Global,
        heads: &Heads,
        scheduler: SchedId,
        thread: ThreadId,
        module: ModuleId,
        args: &[Value],
    ) -> Result<(), NoMemory>
        requires sound { IsSound self.old }
        ensures sound { OnOk result (IsSound self.new) }
        ensures keeps { OnOk result (KeepsLine self.old.line self.new.line) }
        ensures applied { OnOk result (applied_of self.new
            ≡ apply_order heads.now scheduler (applied_of self.old)
            (order.Create thread «module» args.now)) }
    {
        if self.line.len() < MAX_LINKED {
            let thread = new_thread(alloc, heads, thread, module, args)?;
            return self.link(thread);
        }
        self.end(alloc, scheduler, thread, End::Full, Mark::Full)
    }

    /// A thread is stopped, where it is linked.
    fn stop(
        &mut self,
        alloc: Global,
        heads: &Heads,
        scheduler: SchedId,
        thread: ThreadId,
    ) -> Result<(), NoMemory>
        requires sound { IsSound self.old }
        ensures sound { OnOk result (IsSound self.new) }
        ensures keeps { OnOk result (KeepsLine self.old.line self.new.line) }
        ensures applied { OnOk result (applied_of self.new
            ≡ apply_order heads.now scheduler (applied_of self.old) (order.Stop thread)) }
    {
        if self.line.stop(alloc, thread) {
            return self.end(alloc, scheduler, thread, End::Stopped, Mark::Done);
        }
        self.mark(Mark::Void)
    }

    /// A thread is suspended, or isn't any more, where it is linked.
    fn suspend(&mut self, thread: ThreadId, suspended: bool) -> Result<(), NoMemory>
        requires sound { IsSound self.old }
        ensures sound { OnOk result (IsSound self.new) }
        ensures keeps { OnOk result (KeepsLine self.old.line self.new.line) }
        ensures applied { OnOk result (applied_of self.new
            ≡ suspended_by thread suspended (applied_of self.old)) }
    {
        if self.line.suspend(thread, suspended)? {
            return self.mark(Mark::Done);
        }
        self.mark(Mark::Void)
    }

    /// An event of the board is present, with one more value where there is one, and the waits are
    /// told.
    fn generate(
        &mut self,
        alloc: Global,
        event: EventId,
        value: Option<i64>,
    ) -> Result<(), NoMemory>
        requires sound { IsSound self.old }
        ensures sound { OnOk result (IsSound self.new) }
        ensures keeps { OnOk result (KeepsLine self.old.line self.new.line) }
        ensures applied { OnOk result (applied_of self.new
            ≡ record (applied_of self.old) { board = generate_on event value self.old.board }) }
    {
        if (event.0 as usize) < self.board.events() {
            generate(alloc, &mut self.board, event, value)?;
            counts_follow_the_board();
            self.line.on_event(event, self.board.count(event));
        }
        Ok(())
    }

    /// The event is present, with one more value where there is one.
    fn broadcast(
        &mut self,
        alloc: Global,
        event: EventId,
        value: Option<i64>,
    ) -> Result<(), NoMemory>
        requires sound { IsSound self.old }
        ensures sound { OnOk result (IsSound self.new) }
        ensures keeps { OnOk result (KeepsLine self.old.line self.new.line) }
        ensures applied { OnOk result (applied_of self.new
            ≡ marked mark.Done (record (applied_of self.old) {
              board = generate_on event value self.old.board;
            })) }
    {
        self.generate(alloc, event, value)?;
        self.mark(Mark::Done)
    }

    /// One order.
    fn apply(
        &mut self,
        alloc: Global,
        heads: &Heads,
        scheduler: SchedId,
        order: &Order,
    ) -> Result<(), NoMemory>
        requires sound { IsSound self.old }
        ensures sound { OnOk result (IsSound self.new) }
        ensures keeps { OnOk result (KeepsLine self.old.line self.new.line) }
        ensures applied { OnOk result (applied_of self.new
            ≡ apply_order heads.now scheduler (applied_of self.old) order.now) }
    {
        match order {
            Order::Create {
                thread,
                module,
                args,
            } => self.create(alloc, heads, scheduler, *thread, *module, args.as_slice()),
            Order::Arrive(thread) => {
                let thread = thread.as_thread().try_clone(alloc)?;
                self.link(thread)
            }
            Order::Stop(thread) => self.stop(alloc, heads, scheduler, *thread),
            Order::Suspend(thread) => self.suspend(*thread, true),
            Order::Resume(thread) => self.suspend(*thread, false),
            Order::Broadcast { event, value } => self.broadcast(alloc, *event, *value),
            Order::Ended { thread, end: _ } => {
                self.learn(alloc, *thread)?;
                self.mark(Mark::Done)
            }
        }
    }

    /// The orders of a batch, one after the other. Each is counted.
    pub fn apply_all<L: Ledger>(
        &mut self,
        alloc: Global,
        heads: &Heads,
        scheduler: SchedId,
        orders: &[Order],
        steps: &mut Steps<L>,
    ) -> Result<(), NoMemory>
        requires sound { IsSound self.old }
        ensures sound { OnOk result (IsSound self.new) }
        ensures keeps { OnOk result (KeepsLine self.old.line self.new.line) }
        ensures applied { OnOk result (applied_of self.new
            ≡ apply_orders heads.now scheduler (applied_of self.old) orders.now) }
        ensures counted { OnOk result (steps.new ≡ steps.old + length orders.now) }
        ensures within { steps.new ≤ steps.old + length orders.now }
    {
        for order in orders {
            steps.tick();
            self.apply(alloc, heads, scheduler, order)?;
        }
        Ok(())
    }
}
