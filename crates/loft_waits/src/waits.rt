//! The waits of one scheduler's linked threads, by position.

ghost use Rattle.std.specs.Prelude.{◌≡◌, ◌+◌, ◌<◌, ◌≤◌, ◌^◌, ◌++◌, ◌∷◌, [], IfOk, OnOk, OnErr, Some, None, take, length, slice_set as set, option_and_then, MatchOption, true};
ghost use Rattle.std.specs.List.{list_any};
ghost use Rattle.loft_sense.specs.WaitCodes.{number_left};
ghost use Rattle.loft_waits.specs.Told.{wait_at, nobody, closed, no_counts, is_late, ready_at, is_alone, IsNext, IsFreeFrom, NobodyIn, NobodyFrom};

use crate::flags::Flags;
use crate::key::Key;
use crate::places::{Places, enter, forget, leave_entry, no_places};
use crate::plain::Plain;
use crate::wake::{wake_close, wake_event, wake_one};
use loft_base::{EventId, NoMemory, ThreadId, TryClone};
use loft_finder::IdKey;
use loft_orders::Wait;
use std::alloc::Global;
use std::marker::Model;

/// Who waits for what, and who can go (docs/SEMANTICS.md, "Waiting lists"). Contracts see the wait
/// at each position, what was told of events in this instant, the threads that are told as ended,
/// and how many instants have closed.
#[derive(Drop)]
pub struct Waits {
    plain: Plain,
    /// For each position 1 where its thread can go, else 0.
    ready: Flags,
    places: Places,
}

impl Model for Waits {
    ghost use Rattle.loft_waits.specs.Told.{Told};

    ghost Value = { Told };

    ghost use Rattle.loft_waits.specs.Places.{IsKept};

    ghost view = { λ w. w.plain };

    ghost invariant = { λ w. IsKept w.plain w.ready w.places };
}

impl Waits {
    /// No positions, and so many events, none of them present.
    ///
    /// # Errors
    ///
    /// Out of memory.
    pub fn new(alloc: Global, events: u32) -> Result<Waits, NoMemory>
        ensures { IfOk result (λ w. w
            ≡ record { waits = []; counts = no_counts events; ended = []; closes = 0 }) }
    {
        Ok(Waits {
            plain: Plain::new(alloc, events)?,
            ready: Flags::new(alloc),
            places: no_places(alloc),
        })
    }

    /// One more position, after the others. Nobody waits there.
    ///
    /// # Errors
    ///
    /// Out of memory; the waits are as before.
    pub fn grow(&mut self) -> Result<(), NoMemory>
        ensures ok { OnOk result (self.new
            ≡ record self.old { waits = self.old.waits ++ nobody ∷ [] }) }
        ensures err { OnErr result (self.new ≡ self.old) }
    {
        self.ready.grow()?;
        self.plain.grow()
    }

    /// So many positions are left, where nobody waits after them. It takes no memory.
    pub fn truncate(&mut self, len: usize)
        requires free { IsFreeFrom self.old len }
        ensures { self.new ≡ record self.old { waits = take len self.old.waits } }
    {
        self.plain.truncate(len);
        self.ready.truncate(len);
    }

    /// The thread at a position where nobody waits waits so from now on. It looks at nobody else.
    ///
    /// # Errors
    ///
    /// Out of memory; the waits are as before.
    pub fn add(&mut self, alloc: Global, pos: usize, wait: &Wait) -> Result<(), NoMemory>
        requires within { pos < length self.old.waits }
        requires free { wait_at self.old pos ≡ None }
        ensures ok { OnOk result (self.new
            ≡ record self.old { waits = set self.old.waits pos (Some wait.now) }) }
        ensures err { OnErr result (self.new ≡ self.old) }
    {
        let copy = wait.try_clone(alloc)?;
        self.put(pos, copy)
    }

    /// The same with a wait that is handed over.
    ///
    /// # Errors
    ///
    /// Out of memory; the waits are as before.
    pub fn put(&mut self, pos: usize, wait: Wait) -> Result<(), NoMemory>
        requires within { pos < length self.old.waits }
        requires free { wait_at self.old pos ≡ None }
        ensures ok { OnOk result (self.new
            ≡ record self.old { waits = set self.old.waits pos (Some wait) }) }
        ensures err { OnErr result (self.new ≡ self.old) }
    {
        enter(&mut self.places, &wait, self.plain.closes(), pos)?;
        self.plain.put(pos, wait);
        self.ready.put(pos, self.plain.can_go(pos));
        Ok(())
    }

    /// Nobody waits at a position any more. It looks at nobody else, and takes no memory. The answer is
    /// the wait that was there, as the closes have lowered it.
    pub fn take(&mut self, pos: usize) -> Option<Wait>
        requires within { pos < length self.old.waits }
        ensures told { self.new ≡ record self.old { waits = set self.old.waits pos None } }
        ensures wait { result ≡ wait_at self.old pos }
    {
        let entry = self.plain.take(pos);
        leave_entry(&mut self.places, &entry, pos);
        self.ready.clear(pos);
        match entry {
            Some(entry) => Some(entry.into_wait(self.plain.closes())),
            None => None,
        }
    }

    /// Nobody waits at a position any more. It looks at nobody else, and takes no memory.
    pub fn remove(&mut self, pos: usize)
        requires within { pos < length self.old.waits }
        ensures { self.new ≡ record self.old { waits = set self.old.waits pos None } }
    {
        self.take(pos);
    }

    /// A copy of the wait at a position, as the closes have lowered it.
    ///
    /// # Errors
    ///
    /// Out of memory.
    pub fn wait(&self, alloc: Global, pos: usize) -> Result<Option<Wait>, NoMemory>
        requires within { pos < length self.now.waits }
        ensures { IfOk result (λ w. w ≡ wait_at self.now pos) }
    {
        self.plain.wait(alloc, pos)
    }

    /// Whether one of the waits ends by itself: at once, by its number, or as its value doesn't come.
    pub fn any_alone(&self) -> bool
        ensures { result ≡ list_any is_alone self.now.waits }
    {
        self.plain.any_alone()
    }

    /// An event is present, with so many values so far. Looked at are those who wait for it as it
    /// comes to be present, and those who wait for one of its new values. It takes no memory.
    pub fn on_event(&mut self, event: EventId, count: usize)
        requires declared { event.0 < length self.old.counts }
        ensures { self.new ≡ record self.old { counts = set self.old.counts event.0 (Some count) } }
    {
        let was = self.plain.count(event);
        self.plain.on_event(event, count);
        wake_event(
            &self.places.set,
            event.0,
            was,
            count,
            &self.plain,
            &mut self.ready,
        );
    }

    /// A thread has ended. Looked at are those who wait for its end. It is kept, so that a wait for
    /// its end that is added later is over.
    ///
    /// # Errors
    ///
    /// Out of memory; the waits are as before.
    pub fn on_ended(&mut self, _alloc: Global, thread: ThreadId) -> Result<(), NoMemory>
        ensures ok { OnOk result (self.new
            ≡ record self.old { ended = self.old.ended ++ thread ∷ [] }) }
        ensures err { OnErr result (self.new ≡ self.old) }
    {
        self.plain.on_ended(thread)?;
        let key = Key::End(IdKey::of(thread));
        wake_one(&self.places.set, key, &self.plain, &mut self.ready);
        Ok(())
    }

    /// An instant closes in which nobody can go any more. Looked at are those whose number runs
    /// out, and those who wait for a value that has not come. It takes no memory.
    pub fn close(&mut self)
        requires few { self.old.closes + 1 < 2 ^ 63 }
        requires idle { NobodyFrom self.old 0 }
        ensures { self.new ≡ closed self.old }
    {
        self.ready.rest();
        self.plain.close();
        let closes = self.plain.closes();
        wake_close(&self.places, closes, &self.plain, &mut self.ready);
        forget(&mut self.places, closes);
    }

    /// The number left in the wait at a position, as the closes have lowered it; None where it has
    /// none.
    pub fn left(&self, pos: usize) -> Option<i64>
        requires within { pos < length self.now.waits }
        ensures { result ≡ option_and_then number_left (wait_at self.now pos) }
    {
        self.plain.left(pos)
    }

    /// Whether the wait at a position is for a value that did not come in its instant.
    pub fn is_late(&self, pos: usize) -> bool
        requires within { pos < length self.now.waits }
        ensures { result ≡ is_late (wait_at self.now pos) }
    {
        self.plain.is_late(pos)
    }

    /// The first position from there on whose thread can go.
    fn first_from(&self, from: usize) -> Option<usize>
        ensures { MatchOption result (NobodyFrom self.now from)
            (λ q. (from ≤ q) × (q < length self.now.waits) × (ready_at self.now q ≡ true)
            × NobodyIn self.now from q) }
    {
        self.ready.next(from)
    }

    /// The first position after this one whose thread can go, else the first one at all; None
    /// exactly where nobody can go. The first of all is the one after `usize::MAX`.
    pub fn next_after(&self, pos: usize) -> Option<usize>
        ensures { IsNext self.now pos result }
    {
        if pos < self.ready.len() {
            if let Some(next) = self.first_from(pos + 1) {
                return Some(next);
            }
        }
        self.first_from(0)
    }
}
