//! The waits by themselves: who can go is found by asking each.

ghost use Rattle.std.specs.Prelude.{◌≡◌, ◌+◌, ◌-◌, ◌<◌, ◌≤◌, ◌^◌, ◌++◌, ◌∷◌, [], IfOk, OnOk, OnErr, Some, None, length, set, take, option_and_then, option_map};
ghost use Rattle.std.specs.List.{list_any};
ghost use Rattle.loft_sense.specs.WaitCodes.{number_left};
ghost use Rattle.loft_waits.specs.Told.{wait_at, nobody, closed, ready_at, no_counts, is_late, count_in, is_alone as is_alone_of, IsFreeFrom};
ghost use Rattle.loft_waits.specs.Aged.{wait_now, one_if, IsEntryBefore};

use crate::entry::{Entry, count, ends_alone};
use loft_base::{EventId, NoMemory, ThreadId};
use loft_ended::Ended;
use loft_orders::Wait;
use std::alloc::Global;
use std::marker::Model;
use std::mem;

/// The waits, and what was told to them.
#[derive(Drop)]
pub(crate) struct Plain {
    slots: Vec<Option<Entry>>,
    counts: Vec<Option<usize>>,
    ended: Ended,
    clock: u64,
    /// How many of the waits end by themselves.
    alone: usize,
}

impl Model for Plain {
    ghost use Rattle.loft_waits.specs.Told.{Told};

    ghost Value = { Told };

    ghost use Rattle.loft_waits.specs.Aged.{waits_of, IsPlain};

    ghost view = { λ w. record {
      waits = waits_of w.clock w.slots.items;
      counts = w.counts.items;
      ended = w.ended;
      closes = w.clock;
    } };

    ghost invariant = { λ w. IsPlain w.clock w.slots.items w.alone };
}

/// No event is present.
fn clear(counts: &mut Vec<Option<usize>>)
    ensures { counts.new.items ≡ no_counts (length counts.old.items) }
{
    counts.as_mut_slice().fill(None);
}

/// So many events, none of them present.
fn absent(alloc: Global, events: u32) -> Result<Vec<Option<usize>>, NoMemory>
    ensures { IfOk result (λ c. c.items ≡ no_counts events) }
{
    let mut counts = Vec::new(alloc);
    for _e in 0..events {
        counts.push(None)?;
    }
    Ok(counts)
}

/// One more, where there is one.
fn one_more(count: usize, more: bool) -> usize
    requires { count + one_if more < 2 ^ 64 }
    ensures { result ≡ count + one_if more }
{
    if more { count + 1 } else { count }
}

/// One less, where there was one.
fn one_less(count: usize, less: bool) -> usize
    requires { one_if less ≤ count }
    ensures { result ≡ count - one_if less }
{
    if less { count - 1 } else { count }
}

/// Whether a wait that ends by itself was entered.
fn is_alone(entry: &Option<Entry>) -> bool
    ensures { result ≡ is_alone_of (option_map (λ e. e.wait) entry.now) }
{
    match entry {
        Some(entry) => ends_alone(&entry.wait),
        None => false,
    }
}

impl Plain {
    pub(crate) fn new(alloc: Global, events: u32) -> Result<Plain, NoMemory>
        ensures { IfOk result (λ w. w
            ≡ record { waits = []; counts = no_counts events; ended = []; closes = 0 }) }
    {
        let counts = absent(alloc, events)?;
        Ok(Plain {
            slots: Vec::new(alloc),
            counts,
            ended: Ended::new(alloc),
            clock: 0,
            alone: 0,
        })
    }

    /// How many positions there are.
    pub(crate) fn len(&self) -> usize
        ensures { result ≡ length self.now.waits }
    {
        self.slots.len()
    }

    /// How many instants have closed.
    pub(crate) fn closes(&self) -> u64
        ensures { result ≡ self.now.closes }
    {
        self.clock
    }

    pub(crate) fn grow(&mut self) -> Result<(), NoMemory>
        ensures ok { OnOk result (self.new
            ≡ record self.old { waits = self.old.waits ++ nobody ∷ [] }) }
        ensures err { OnErr result (self.new ≡ self.old) }
    {
        self.slots.push(None)?;
        Ok(())
    }

    /// So many positions are left, where nobody waits after them.
    pub(crate) fn truncate(&mut self, len: usize)
        requires free { IsFreeFrom self.old len }
        ensures { self.new ≡ record self.old { waits = take len self.old.waits } }
    {
        self.slots.truncate(len);
    }

    /// The thread at a position waits so from now on.
    pub(crate) fn put(&mut self, pos: usize, wait: Wait)
        requires within { pos < length self.old.waits }
        requires free { wait_at self.old pos ≡ None }
        ensures { self.new ≡ record self.old { waits = set self.old.waits pos (Some wait) } }
    {
        self.alone = one_more(self.alone, ends_alone(&wait));
        let since = self.clock;
        mem::replace(&mut self.slots[pos], Some(Entry { wait, since }));
    }

    /// Nobody waits at a position any more. The answer is the entry that was there.
    pub(crate) fn take(&mut self, pos: usize) -> Option<Entry>
        requires within { pos < length self.old.waits }
        ensures told { self.new ≡ record self.old { waits = set self.old.waits pos None } }
        ensures wait { option_map (wait_now self.old.closes) result ≡ wait_at self.old pos }
        ensures before { IsEntryBefore self.old.closes result }
    {
        let entry = mem::replace(&mut self.slots[pos], None);
        self.alone = one_less(self.alone, is_alone(&entry));
        entry
    }

    /// Whether one of the waits ends by itself.
    pub(crate) fn any_alone(&self) -> bool
        ensures { result ≡ list_any is_alone_of self.now.waits }
    {
        self.alone != 0
    }

    /// A copy of the wait at a position.
    pub(crate) fn wait(&self, alloc: Global, pos: usize) -> Result<Option<Wait>, NoMemory>
        requires within { pos < length self.now.waits }
        ensures { IfOk result (λ w. w ≡ wait_at self.now pos) }
    {
        match &self.slots[pos] {
            Some(entry) => Ok(Some(entry.wait(alloc, self.clock)?)),
            None => Ok(None),
        }
    }

    pub(crate) fn count(&self, event: EventId) -> Option<usize>
        ensures { result ≡ count_in self.now.counts event }
    {
        count(self.counts.as_slice(), event)
    }

    pub(crate) fn on_event(&mut self, event: EventId, count: usize)
        requires declared { event.0 < length self.old.counts }
        ensures { self.new ≡ record self.old { counts = set self.old.counts event.0 (Some count) } }
    {
        self.counts[event.0 as usize] = Some(count);
    }

    pub(crate) fn on_ended(&mut self, thread: ThreadId) -> Result<(), NoMemory>
        ensures ok { OnOk result (self.new
            ≡ record self.old { ended = self.old.ended ++ thread ∷ [] }) }
        ensures err { OnErr result (self.new ≡ self.old) }
    {
        self.ended.push(thread)
    }

    pub(crate) fn close(&mut self)
        requires few { self.old.closes + 1 < 2 ^ 64 }
        ensures { self.new ≡ closed self.old }
    {
        clear(&mut self.counts);
        self.clock += 1;
    }

    /// The number left in the wait at a position.
    pub(crate) fn left(&self, pos: usize) -> Option<i64>
        requires within { pos < length self.now.waits }
        ensures { result ≡ option_and_then number_left (wait_at self.now pos) }
    {
        match &self.slots[pos] {
            Some(entry) => entry.left(self.clock),
            None => None,
        }
    }

    /// Whether the wait at a position is for a value that did not come.
    pub(crate) fn is_late(&self, pos: usize) -> bool
        requires within { pos < length self.now.waits }
        ensures { result ≡ is_late (wait_at self.now pos) }
    {
        match &self.slots[pos] {
            Some(entry) => entry.is_next(self.clock),
            None => false,
        }
    }

    /// Whether the thread at a position can go.
    pub(crate) fn can_go(&self, pos: usize) -> bool
        requires within { pos < length self.now.waits }
        ensures { result ≡ ready_at self.now pos }
    {
        match &self.slots[pos] {
            Some(entry) => entry.is_over(self.clock, self.counts.as_slice(), &self.ended),
            None => false,
        }
    }
}
