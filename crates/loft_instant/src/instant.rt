//! One instant of a scheduler (docs/SEMANTICS.md, "Instant").

ghost use Rattle.std.specs.Prelude.{◌≡◌, ◌≤◌, ◌<◌, ◌^◌, ◌++◌, [], false, length, map, filter, IfOk, OnOk};
ghost use Rattle.loft_board.specs.Board.{no_events};
ghost use Rattle.loft_sense.specs.Heads.{shared_of};
ghost use Rattle.loft_sense.specs.Machine.{heads as heads_of};
ghost use Rattle.loft_sense.specs.Apply.{apply_orders};
ghost use Rattle.loft_sense.specs.Passes.{passes as passes_over};
ghost use Rattle.loft_tree.specs.declared.heads.Place.TheVariants.{Sched as SchedPlace};
ghost use Rattle.loft_sense.specs.Instant.{runner_of as begin_of, instant as instant_of};
ghost use Rattle.loft_sense.specs.Instant.{closed, closed_thread, stays, has_run, machine_closed, note_of};
ghost use Rattle.loft_sense.specs.Instant.{sent_by, leavers, changes as changes_in};

use crate::batch::Batch;
use crate::shared::{changes, keep_values, shared_values};
use loft_base::{Limits, NoMemory, SchedId, Sequence, SharedId};
use loft_board::Board;
use loft_effect::{Around, tell_all};
use loft_ended::Ended;
use loft_orders::{Changes, InstantNote, Numbers, Order, Orders, Sents, Threads};
use loft_passes::{Interpreter, Passes, Runner, begin_all, close_all};
use loft_sense::Tally;
use loft_tally::{first_tally, tally_after};
use loft_tree::{Heads, Place};
use std::alloc::Global;

/// What stays as it is while a scheduler's instants are made.
#[derive(Drop)]
pub struct Setting<I: Interpreter> {
    pub interpreter: I,
    pub scheduler: SchedId,
    pub limits: Limits,
    /// The scheduler's shared variables, in the order of their declarations.
    pub own: Vec<SharedId>,
    /// How many events there are.
    pub events: u32,
    ghost own_ones: { own.items ≡ shared_of (heads_of (I.program interpreter)) scheduler },
    ghost all_events: { events ≡ length (heads_of (I.program interpreter)).events },
}

/// A scheduler between two instants.
#[derive(Drop)]
pub struct State {
    /// In the order in which they were linked.
    pub linked: Vec<Runner>,
    pub shared: Numbers,
    /// The shared values before the last instant; the next one uses their room.
    pub before: Numbers,
    /// The threads known as ended.
    pub known: Ended,
    /// No event is present between two instants; the room of their values is kept.
    pub board: Board,
    /// The creates that it has sent.
    pub made: u64,
    /// What it has used of its bounds.
    pub tally: Tally,
}

impl State {
    ghost use Rattle.loft_instant.specs.States.{machine_with, first_machine};

    /// A scheduler before its first instant, where the program has these declarations and so many
    /// events.
    pub fn first(
        alloc: Global,
        scheduler: SchedId,
        heads: &Heads,
        events: u32,
    ) -> Result<State, NoMemory>
        ensures machine { IfOk result (λ s. machine_with scheduler s
            ≡ first_machine heads.now scheduler) }
        ensures board { IfOk result (λ s. s.board ≡ no_events events) }
    {
        let shared = shared_values(alloc, scheduler, heads.shared.as_slice())?;
        let board = Board::new(alloc, events)?;
        Ok(State {
            linked: Vec::new(alloc),
            shared,
            before: Sequence::new(alloc),
            known: Ended::new(alloc),
            board,
            made: 0,
            tally: first_tally(heads, scheduler),
        })
    }
}

/// The same list in no more room than it needs, as what is kept for the whole run.
pub fn fitted<T: Drop>(list: Sequence<T>) -> Sequence<T>
    ensures { result ≡ list }
{
    let mut items = list.into_vec();
    items.shrink_to_fit();
    Sequence::from_vec(items)
}

impl<I: Interpreter> Setting<I> {
    ghost use Rattle.loft_effect.specs.View.{around_of};
    ghost use Rattle.loft_passes.specs.View.{standings_of, runners_of, walk_of};
    ghost use Rattle.loft_instant.specs.Batches.{applied_of};
    ghost use Rattle.loft_instant.specs.States.{machine_with, machine_before, walk_from};

    /// The batch is applied to these threads.
    fn apply(
        &self,
        alloc: Global,
        linked: Vec<Runner>,
        known: Ended,
        board: Board,
        orders: &[Order],
    ) -> Result<Batch, NoMemory>
        requires { board ≡ no_events self.now.events }
        ensures { IfOk result (λ b. let h = heads_of (I.program self.now.interpreter) in
            applied_of b ≡ apply_orders h self.now.scheduler (record {
              linked = standings_of linked.items;
              known = known;
              board = no_events (length h.events);
              marks = [];
              stopped = [];
              sent = [];
            }) orders.now) }
    {
        let mut batch = Batch::new(alloc, linked, known, self.events, board);
        batch.apply_all(alloc, self.interpreter.heads(), self.scheduler, orders)?;
        Ok(batch)
    }

    /// Passes over these threads are made until one runs nobody.
    fn pass<P: Passes<I>>(
        &self,
        alloc: Global,
        passes: &mut P,
        linked: &mut Vec<Runner>,
        around: &mut Around,
    ) -> Result<(), NoMemory>
        ensures { OnOk result (walk_of linked.new.items around.new false
            ≡ passes_over (I.program self.now.interpreter)
            (map (begin_of self.now.limits.budget) (standings_of linked.old.items))
            (around_of around.old)) }
    {
        begin_all(linked, self.limits.budget);
        passes.make(alloc, &self.interpreter, linked, around)
    }

    /// What stands around the threads when passes over them have run until one runs nobody, where
    /// they find these values.
    fn run<P: Passes<I>>(
        &self,
        alloc: Global,
        passes: &mut P,
        linked: &mut Vec<Runner>,
        board: Board,
        shared: Numbers,
        known: Ended,
        made: u64,
    ) -> Result<Around, NoMemory>
        requires { made ≤ 2 ^ 63 }
        ensures { IfOk result (λ around. walk_of linked.new.items around false
            ≡ passes_over (I.program self.now.interpreter)
            (map (begin_of self.now.limits.budget) (standings_of linked.old.items))
            (record {
              place = SchedPlace self.now.scheduler;
              board = board;
              shared = shared;
              known = known;
              made = made;
              entries = 0;
              acts = [];
            })) }
    {
        let mut around = Around {
            place: Place::Sched(self.scheduler),
            board,
            shared,
            known,
            made,
            entries: 0,
            steps: 0,
            bound: 0,
            acts: Sequence::new(alloc),
        };
        self.pass(alloc, passes, linked, &mut around)?;
        Ok(around)
    }

    /// The threads close, and all that was done is sent. Answers how the threads that ran stand, and
    /// which shared variables have another value than before.
    fn close(
        &self,
        alloc: Global,
        linked: &mut Vec<Runner>,
        sent: &mut Sents,
        around: &Around,
        before: &[i64],
    ) -> Result<(Threads, Changes), NoMemory>
        ensures linked { OnOk result (standings_of linked.new.items
            ≡ map closed (filter stays (runners_of linked.old.items))) }
        ensures stands { IfOk result (λ did. did.0
            ≡ map closed_thread (filter has_run (filter stays (runners_of linked.old.items)))) }
        ensures sent { OnOk result (sent.new
            ≡ (sent.old ++ sent_by (SchedPlace self.now.scheduler) around.now.acts)
            ++ leavers (runners_of linked.old.items)) }
        ensures changed { IfOk result (λ did. did.1 ≡ changes_in
            (shared_of (heads_of (I.program self.now.interpreter)) self.now.scheduler)
            before.now around.now.shared) }
    {
        let place = Place::Sched(self.scheduler);
        tell_all(alloc, place, sent, around.acts.as_slice())?;
        let stands = close_all(alloc, linked, sent)?;
        let changed = changes(alloc, self.own.as_slice(), before, around.shared.as_slice())?;
        Ok((stands, changed))
    }

    /// One instant of a scheduler in this state.
    pub(crate) fn instant<P: Passes<I>>(
        &self,
        alloc: Global,
        passes: &mut P,
        state: State,
        orders: &Orders,
    ) -> Result<(State, InstantNote), NoMemory>
        requires board { state.board ≡ no_events self.now.events }
        requires made { state.made ≤ 2 ^ 63 }
        requires number { state.tally.number < 2 ^ 63 }
        ensures machine { IfOk result (λ did. machine_with self.now.scheduler did.0
            ≡ (instant_of (I.program self.now.interpreter) self.now.limits
            (machine_with self.now.scheduler state) orders.now).machine) }
        ensures note { IfOk result (λ did. did.1
            ≡ (instant_of (I.program self.now.interpreter) self.now.limits
            (machine_with self.now.scheduler state) orders.now).note) }
        ensures board { IfOk result (λ did. did.0.board ≡ no_events self.now.events) }
    {
        let State {
            linked,
            shared,
            mut before,
            known,
            board,
            made,
            tally,
        } = state;
        keep_values(&mut before, shared.as_slice())?;
        let batch = self.apply(alloc, linked, known, board, orders.as_slice())?;
        let (mut state, note) = self.after_batch(
            alloc, passes, batch, shared, before, made, tally,
        )?;
        let heads = self.interpreter.heads();
        state.tally = tally_after(heads, self.scheduler, tally, orders, &note);
        Ok((state, note))
    }

    /// What is left of an instant once its batch is applied: the passes, and the close. The shared
    /// values stand twice, as the instant finds them and as it changes them. The instant isn't told
    /// yet.
    fn after_batch<P: Passes<I>>(
        &self,
        alloc: Global,
        passes: &mut P,
        batch: Batch,
        shared: Numbers,
        before: Numbers,
        made: u64,
        tally: Tally,
    ) -> Result<(State, InstantNote), NoMemory>
        requires board { length batch.board ≡ self.now.events }
        requires before { before ≡ shared }
        requires made { made ≤ 2 ^ 63 }
        requires number { tally.number < 2 ^ 63 }
        ensures machine { IfOk result (λ did.
            let m = machine_before self.now.scheduler shared made tally in
            machine_with self.now.scheduler did.0 ≡ machine_closed m
            (walk_from (I.program self.now.interpreter) self.now.limits.budget m (applied_of batch))) }
        ensures note { IfOk result (λ did.
            let m = machine_before self.now.scheduler shared made tally in
            did.1 ≡ note_of (I.program self.now.interpreter) m (applied_of batch)
            (walk_from (I.program self.now.interpreter) self.now.limits.budget m (applied_of batch))) }
        ensures board { IfOk result (λ did. did.0.board ≡ no_events self.now.events) }
    {
        let Batch {
            mut linked,
            known,
            events: _,
            board,
            marks,
            stopped,
            mut sent,
        } = batch;
        let around = self.run(alloc, passes, &mut linked, board, shared, known, made)?;
        let (stands, changed) = self.close(
            alloc,
            &mut linked,
            &mut sent,
            &around,
            before.as_slice(),
        )?;
        let Around {
            mut board,
            shared,
            known,
            made,
            acts,
            ..
        } = around;
        board.reset();
        let acts = fitted(acts);
        let sent = fitted(sent);
        let note = InstantNote {
            number: tally.number + 1,
            marks,
            stopped,
            acts,
            sent,
            stands,
            changed,
        };
        let state = State {
            linked,
            shared,
            before,
            known,
            board,
            made,
            tally,
        };
        Ok((state, note))
    }
}
