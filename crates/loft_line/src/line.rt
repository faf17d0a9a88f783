//! The linked threads between two instants, and while a batch is applied.

ghost use Rattle.std.specs.Prelude.{◌≡◌, ◌+◌, ◌*◌, ◌<◌, ◌≤◌, ◌++◌, ◌∷◌, [], Some, length, slice_set, IfOk, OnOk};
ghost use Rattle.loft_sense.specs.Apply.{is_linked, without_first, with_last, suspend as suspend_in};
ghost use Rattle.loft_waits.specs.Told.{no_counts};

use crate::slots::{empty, enter, find, leave, set_suspended};
use loft_base::{EventId, NoMemory, ThreadId};
use loft_finder::Finder;
use loft_orders::Thread;
use loft_passes::Runner;
use loft_waits::{Flags, Waits};
use std::alloc::Global;

/// The linked threads of a scheduler, by position, in the order in which they were linked. One that
/// has left or ended leaves an empty place. The waits of the others are kept over the instants, so
/// that an instant looks at nobody who can't go.
#[derive(Drop)]
pub struct Line {
    pub slots: Vec<Runner>,
    /// At which positions those that are held may stand, by their ids.
    pub finder: Finder,
    /// The waits of those that are held and aren't suspended.
    pub waits: Waits,
    /// For each position 1 where its thread has run in this instant.
    pub ran: Flags,
    /// How many are held.
    pub held: usize,
    /// How many steps a thread may make in an instant.
    pub budget: u64,
}

impl Line {
    ghost use Rattle.loft_line.specs.Line.{runners_in, standings_in, IsIdle, KeepsTold};

    /// No threads, and so many events, none of them present.
    pub fn new(alloc: Global, events: u32, budget: u64) -> Result<Line, NoMemory>
        ensures idle { IfOk result (λ l. IsIdle l) }
        ensures linked { IfOk result (λ l. standings_in (runners_in l) ≡ []) }
        ensures told { IfOk result (λ l. l.waits
            ≡ record { waits = []; counts = no_counts events; ended = []; closes = 0 }) }
        ensures budget { IfOk result (λ l. l.budget ≡ budget) }
    {
        Ok(Line {
            slots: Vec::new(alloc),
            finder: Finder::new(alloc),
            waits: Waits::new(alloc, events)?,
            ran: Flags::new(alloc),
            held: 0,
            budget,
        })
    }

    /// How many threads are linked.
    pub fn len(&self) -> usize
        requires idle { IsIdle self.now }
        ensures { result ≡ length (standings_in (runners_in self.now)) }
    {
        self.held
    }

    /// One more place, with a thread.
    fn push(&mut self, thread: Thread) -> Result<(), NoMemory>
        requires idle { IsIdle self.old }
        ensures idle { OnOk result (IsIdle self.new) }
        ensures linked { OnOk result (standings_in (runners_in self.new)
            ≡ with_last thread (standings_in (runners_in self.old))) }
        ensures told { OnOk result (KeepsTold self.old self.new) }
        ensures places { OnOk result (length self.new.slots.items ≡ length self.old.slots.items + 1) }
    {
        let pos = self.slots.len();
        let id = thread.id;
        let mut runner = Runner::new(thread);
        runner.begin(self.budget);
        self.ran.grow()?;
        self.slots.push(runner)?;
        self.waits.grow()?;
        self.held += 1;
        enter(&mut self.slots, &mut self.waits, pos)?;
        self.finder.add(id, pos);
        Ok(())
    }

    /// One more thread, the last in the list. Where places of threads that have gone are too many,
    /// they are given up before.
    pub fn link(&mut self, thread: Thread) -> Result<(), NoMemory>
        requires idle { IsIdle self.old }
        ensures idle { OnOk result (IsIdle self.new) }
        ensures linked { OnOk result (standings_in (runners_in self.new)
            ≡ with_last thread (standings_in (runners_in self.old))) }
        ensures told { OnOk result (KeepsTold self.old self.new) }
        ensures places { OnOk result (length self.new.slots.items
            ≤ 2 * length (standings_in (runners_in self.new)) + 64) }
    {
        self.make_room()?;
        self.push(thread)
    }

    /// The first thread with this id isn't linked any more. Whether there was one.
    pub fn stop(&mut self, alloc: Global, thread: ThreadId) -> bool
        requires idle { IsIdle self.old }
        ensures idle { IsIdle self.new }
        ensures found { result ≡ is_linked thread (standings_in (runners_in self.old)) }
        ensures linked { standings_in (runners_in self.new)
            ≡ without_first thread (standings_in (runners_in self.old)) }
        ensures told { KeepsTold self.old self.new }
    {
        match find(&mut self.finder, self.slots.as_slice(), thread) {
            Some(pos) => {
                leave(&mut self.slots, &mut self.waits, pos);
                self.held -= 1;
                empty(alloc, &mut self.slots, &mut self.finder, pos);
                true
            }
            None => false,
        }
    }

    /// The first thread with this id is suspended from now on, or isn't any more. Whether there is one.
    pub fn suspend(&mut self, thread: ThreadId, suspended: bool) -> Result<bool, NoMemory>
        requires idle { IsIdle self.old }
        ensures idle { OnOk result (IsIdle self.new) }
        ensures found { IfOk result (λ found. found ≡ is_linked thread (standings_in (runners_in self.old))) }
        ensures linked { OnOk result (standings_in (runners_in self.new)
            ≡ suspend_in thread suspended (standings_in (runners_in self.old))) }
        ensures told { OnOk result (KeepsTold self.old self.new) }
    {
        match find(&mut self.finder, self.slots.as_slice(), thread) {
            Some(pos) => {
                leave(&mut self.slots, &mut self.waits, pos);
                set_suspended(&mut self.slots[pos], suspended);
                enter(&mut self.slots, &mut self.waits, pos)?;
                Ok(true)
            }
            None => Ok(false),
        }
    }

    /// An event is present, with so many values so far.
    pub fn on_event(&mut self, event: EventId, count: usize)
        requires idle { IsIdle self.old }
        requires declared { event.0 < length self.old.waits.counts }
        ensures idle { IsIdle self.new }
        ensures runners { runners_in self.new ≡ runners_in self.old }
        ensures told { self.new.waits ≡ record self.old.waits {
          counts = slice_set self.old.waits.counts event.0 (Some count);
        } }
        ensures budget { self.new.budget ≡ self.old.budget }
    {
        self.waits.on_event(event, count);
    }

    /// A thread has ended.
    pub fn on_ended(&mut self, alloc: Global, thread: ThreadId) -> Result<(), NoMemory>
        requires idle { IsIdle self.old }
        ensures idle { OnOk result (IsIdle self.new) }
        ensures runners { OnOk result (runners_in self.new ≡ runners_in self.old) }
        ensures told { OnOk result (self.new.waits
            ≡ record self.old.waits { ended = self.old.waits.ended ++ thread ∷ [] }) }
        ensures budget { OnOk result (self.new.budget ≡ self.old.budget) }
    {
        self.waits.on_ended(alloc, thread)?;
        Ok(())
    }
}
