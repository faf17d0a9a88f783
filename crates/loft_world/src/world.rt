//! The world: one history, and what waits beside it.

ghost use Rattle.std.specs.Prelude.{◌≡◌, ◌+◌, ◌-◌, ◌≤◌, ◌<◌, [], ◌∷◌, ◌++◌, true, false, length, slice_get, Some, IsTrue, IfOk, OnOk, OnErr, MatchOption};
ghost use Rattle.std.specs.List.{All};
ghost use Rattle.loft_orders.specs.declared.entry.Entry.TheVariants as entry;
ghost use Rattle.loft_sense.specs.Heads.{home};
ghost use Rattle.loft_history.specs.History.{sends, waiting, jobs, creates, is_open, is_busy, is_create, jobs_sent};
ghost use Rattle.loft_history.specs.Legal.{IsRouted};
ghost use Rattle.loft_tree.specs.NamedFits.{IsScheduler};
ghost use Rattle.loft_world.specs.State.{no_entries, with_entry, each_with, IsSending, IsToOne, IsForClients, IsQuiet};

use crate::counts::{Counts, add_one_if, count_in, make_room};
use crate::orders::add_all;
use crate::start::starts_of_each;
use loft_base::{EventId, NoMemory, SchedId, Sequence, TryClone, try_clone_all};
use loft_orders::{BoxedSent, Entry, Order, Orders, Sent, Sents, SharedThread, Thread};
use loft_tree::Heads;
use std::alloc::Global;
use std::collections::{BTreeMap, VecDeque};
use std::marker::Model;
use std::{mem, slice};

/// What the actors of a run share (docs/SEMANTICS.md, "World"): the history, and beside it what
/// waits for each scheduler and for the workers, and how many creates each client has given.
/// Contracts see the declarations that it was made with and the history; each batch and each job in
/// it is what was due (`length` says so). A call that changes it adds one entry. Where it is out of
/// memory the world is as before.
#[derive(Drop)]
pub struct World {
    heads: Heads,
    entries: Vec<Entry>,
    waits: Vec<Orders>,
    jobs: VecDeque<SharedThread>,
    creates: Counts,
}

impl Model for World {
    ghost use Rattle.loft_world.specs.State.{State, IsWorld, count_in};

    ghost Value = { State };

    ghost view = { λ w. record { heads = w.heads; history = w.entries.items } };

    ghost invariant = { λ w. IsWorld w.heads w.entries.items w.waits.items w.jobs.items
        (count_in w.creates) };
}

/// Whether the order creates a thread.
fn is_create(order: &Order) -> bool
    ensures { result ≡ is_create order.now }
{
    match order {
        Order::Create { .. } => true,
        Order::Arrive(_)
        | Order::Stop(_)
        | Order::Suspend(_)
        | Order::Resume(_)
        | Order::Broadcast { .. }
        | Order::Ended { .. } => false,
    }
}

/// Whether nobody waits: so many threads wait for workers, and these orders for the schedulers.
fn nobody_waits(jobs: usize, waits: &[Orders]) -> bool
    ensures jobs { IsTrue result → jobs ≡ 0 }
    ensures orders { IsTrue result → All (λ orders. length orders ≡ 0) waits.now }
{
    jobs == 0 && waits.iter().all(|orders| orders.is_empty())
}

impl World {
    /// A world of these declarations without entries.
    pub fn make(alloc: Global, heads: &Heads) -> Result<World, NoMemory>
        ensures { IfOk result (λ world. world ≡ no_entries heads.now) }
    {
        let waits = starts_of_each(alloc, heads)?;
        Ok(World {
            heads: heads.try_clone(alloc)?,
            entries: Vec::new(alloc),
            waits,
            jobs: VecDeque::new(alloc),
            creates: BTreeMap::new(alloc),
        })
    }

    /// A declared scheduler that isn't in an instant takes all the orders that wait for it, in the
    /// order in which they were accepted.
    pub fn take(&mut self, alloc: Global, s: SchedId) -> Result<Orders, NoMemory>
        requires declared { IsScheduler self.old.heads s }
        requires closed { is_open s self.old.history ≡ false }
        ensures batch { IfOk result (λ batch. batch ≡ waiting self.old.heads s self.old.history) }
        ensures ok { IfOk result (λ batch. self.new ≡ with_entry self.old (entry.Take s batch)) }
        ensures err { OnErr result (self.new ≡ self.old) }
    {
        let copy = try_clone_all(alloc, self.left(s).as_slice())?;
        self.record_take(alloc, s, copy)
    }

    /// Adds the entry of a Take, with a copy of the orders that wait: it has no more room than they need. The orders
    /// themselves are the answer.
    fn record_take(&mut self, alloc: Global, s: SchedId, copy: Orders) -> Result<Orders, NoMemory>
        requires declared { IsScheduler self.old.heads s }
        requires closed { is_open s self.old.history ≡ false }
        requires copy { copy ≡ waiting self.old.heads s self.old.history }
        ensures batch { IfOk result (λ batch. batch ≡ copy) }
        ensures ok { OnOk result (self.new ≡ with_entry self.old (entry.Take s copy)) }
        ensures err { OnErr result (self.new ≡ self.old) }
    {
        self.entries.reserve(1)?;
        let batch = mem::replace(&mut self.waits[s.0 as usize], Sequence::new(alloc));
        self.entries.push_reserved(Entry::Take { s, batch: copy });
        Ok(batch)
    }

    /// All that the instant of a declared scheduler sent is accepted, and ends the instant.
    pub fn give(&mut self, alloc: Global, s: SchedId, sent: &Sents) -> Result<(), NoMemory>
        requires declared { IsScheduler self.old.heads s }
        requires open { is_open s self.old.history ≡ true }
        ensures ok { OnOk result (self.new ≡ with_entry self.old (entry.Give s sent.now)) }
        ensures err { OnErr result (self.new ≡ self.old) }
    {
        let copy = try_clone_all(alloc, sent.as_slice())?;
        self.append(alloc, Entry::Give { s, sent: copy }, sent.as_slice())
    }

    /// A worker without a job in hand takes the unlinked thread that has waited longest. None
    /// exactly where no thread waits; then no entry is added.
    pub fn pick(&mut self, alloc: Global, w: u32) -> Result<Option<Thread>, NoMemory>
        requires { is_busy w self.old.history ≡ false }
        ensures job { IfOk result (λ job. job ≡ slice_get (jobs self.old.history) 0) }
        ensures ok { IfOk result (λ job. MatchOption job (self.new ≡ self.old)
            (λ thread. self.new ≡ with_entry self.old (entry.Pick w thread))) }
        ensures err { OnErr result (self.new ≡ self.old) }
    {
        let Some(first) = self.jobs.front() else {
            return Ok(None);
        };
        self.entries.reserve(1)?;
        let thread = first.as_thread().try_clone(alloc)?;
        let job = self.jobs.pop_front();
        self.entries.push_reserved(Entry::Pick {
            w,
            job: job.unwrap(),
        });
        Ok(Some(thread))
    }

    /// One order of a worker with a job in hand is accepted. An arrive or an `ended` is the last of
    /// its job.
    pub fn post(&mut self, alloc: Global, w: u32, sent: &Sent) -> Result<(), NoMemory>
        requires { is_busy w self.old.history ≡ true }
        ensures ok { OnOk result (self.new ≡ with_entry self.old (entry.Post w sent.now)) }
        ensures err { OnErr result (self.new ≡ self.old) }
    {
        let copy = BoxedSent::copy_of(alloc, sent)?;
        self.append(alloc, Entry::Post { w, sent: copy }, slice::from_ref(sent))
    }

    /// One order of a client, to one declared scheduler, is accepted: a create, stop, suspend,
    /// resume or broadcast. The answer is the position of its entry in the history, counted from 1.
    pub fn client(&mut self, alloc: Global, c: u32, sent: &Sent) -> Result<u64, NoMemory>
        requires one { IsToOne self.old.heads sent.now.to }
        requires kind { IsForClients sent.now.order }
        ensures position { IfOk result (λ position. position ≡ length self.new.history) }
        ensures ok { OnOk result (self.new ≡ with_entry self.old (entry.Client c sent.now)) }
        ensures err { OnErr result (self.new ≡ self.old) }
    {
        make_room(&mut self.creates, c)?;
        let copy = BoxedSent::copy_of(alloc, sent)?;
        let entry = Entry::Client { c, sent: copy };
        add(
            alloc,
            &mut self.entries,
            &mut self.waits,
            &mut self.jobs,
            entry,
            slice::from_ref(sent),
        )?;
        let position = self.entries.len() as u64;
        add_one_if(&mut self.creates, c, is_create(&sent.order));
        Ok(position)
    }

    /// Adds the entry of a scheduler or a worker that sends these orders.
    fn append(&mut self, alloc: Global, entry: Entry, sents: &[Sent]) -> Result<(), NoMemory>
        requires sends { sends entry ≡ sents.now }
        requires sending { IsSending entry }
        ensures ok { OnOk result (self.new ≡ with_entry self.old entry) }
        ensures err { OnErr result (self.new ≡ self.old) }
    {
        add(
            alloc,
            &mut self.entries,
            &mut self.waits,
            &mut self.jobs,
            entry,
            sents,
        )
    }

    /// How many orders wait for a declared scheduler.
    pub fn waiting(&self, s: SchedId) -> usize
        requires { IsScheduler self.now.heads s }
        ensures { result ≡ length (waiting self.now.heads s self.now.history) }
    {
        self.waits[s.0 as usize].len()
    }

    /// How many unlinked threads wait for a worker.
    pub fn jobs(&self) -> usize
        ensures { result ≡ length (jobs self.now.history) }
    {
        self.jobs.len()
    }

    /// Whether nothing waits for anybody: no thread for a worker, and no order for a scheduler.
    pub fn is_quiet(&self) -> bool
        ensures { IsTrue result → IsQuiet self.now.heads self.now.history }
    {
        nobody_waits(self.jobs(), self.waits.as_slice())
    }

    /// How many entries the history has. In it each batch is what waited for its scheduler, and
    /// each job the thread that had waited longest.
    pub fn length(&self) -> u64
        ensures length { result ≡ length self.now.history }
        ensures routed { IsRouted self.now.heads self.now.history }
    {
        self.entries.len() as u64
    }

    /// The scheduler on whose board a declared event stands.
    pub fn home(&self, e: EventId) -> SchedId
        requires { e.0 < length self.now.heads.events }
        ensures { result ≡ home self.now.heads e }
    {
        self.heads.events[e.0 as usize].scheduler
    }

    /// How many creates a client has given; 0 for one that never gave any.
    pub fn creates(&self, c: u32) -> u64
        ensures { result ≡ creates c self.now.history }
    {
        count_in(&self.creates, c)
    }

    /// The entry at this position of the history, counted from 1.
    pub fn entry(&self, at: u64) -> &Entry
        requires first { 1 ≤ at }
        requires last { at ≤ length self.now.history }
        ensures { Some result.now ≡ slice_get self.now.history (at - 1) }
    {
        &self.entries[(at - 1) as usize]
    }

    /// What waits for a declared scheduler, in the order in which it was accepted.
    pub fn left(&self, s: SchedId) -> &Orders
        requires { IsScheduler self.now.heads s }
        ensures { result.now ≡ waiting self.now.heads s self.now.history }
    {
        &self.waits[s.0 as usize]
    }
}

/// Adds an entry, and copies of what it sends to where it waits. Where it is out of memory, nothing
/// is added.
fn add(
    alloc: Global,
    entries: &mut Vec<Entry>,
    waits: &mut Vec<Orders>,
    jobs: &mut VecDeque<SharedThread>,
    entry: Entry,
    sents: &[Sent],
) -> Result<(), NoMemory>
    ensures entries { OnOk result (entries.new.items ≡ entries.old.items ++ entry ∷ []) }
    ensures waits { OnOk result (waits.new.items ≡ each_with 0 sents.now waits.old.items) }
    ensures jobs { OnOk result (jobs.new.items ≡ jobs.old.items ++ jobs_sent sents.now) }
    ensures same_entries { OnErr result (entries.new.items ≡ entries.old.items) }
    ensures same_waits { OnErr result (waits.new.items ≡ waits.old.items) }
    ensures same_jobs { OnErr result (jobs.new.items ≡ jobs.old.items) }
{
    entries.push(entry)?;
    let added = add_all(alloc, waits, jobs, sents);
    if added.is_err() {
        drop(entries.pop());
    }
    added
}
