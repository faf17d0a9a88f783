//! What stands around a running thread (docs/SEMANTICS.md, "Run").

ghost use Rattle.std.specs.Prelude.{◌≡◌, ◌≤◌, ◌<◌, ◌+◌, ◌^◌, length, nat_lt, slice_set, OnOk, is_some, unwrap_or, pos};
ghost use Rattle.loft_board.specs.Board.{has, values as event_values, generate};
ghost use Rattle.loft_sense.specs.Around.{with_act, entered};
ghost use Rattle.loft_sense.specs.CanGo.{is_index, is_known as is_known_in, same_thread as same_thread_as};
ghost use Rattle.loft_sense.specs.Statements.{indexed, most_entries as most_entries_at, new_id, one_made};

use loft_base::{EventId, Maker, NoMemory, ThreadId};
use loft_board::Board;
use loft_ended::Ended;
use loft_orders::{Act, Acts, Numbers};
use loft_sense::{MAX_BLOCK_ENTRIES, MAX_ENTRIES};
use loft_tree::Place;
use std::alloc::Global;

/// What a running thread sees, and changes for the threads after it in this instant.
#[derive(Drop)]
pub struct Around {
    /// Where it is linked.
    pub place: Place,
    pub board: Board,
    /// The values of the shared variables of its place, in the order of their declarations.
    pub shared: Numbers,
    /// The threads known as ended.
    pub known: Ended,
    /// The creates that its place has sent.
    pub made: u64,
    /// How many entries this instant has so far.
    pub entries: u64,
    /// The steps that the thread has made in this instant.
    pub steps: u64,
    /// How many steps it may make in this instant.
    pub bound: u64,
    /// What was done in this instant so far.
    pub acts: Acts,
    ghost few: { made ≤ entries + 2 ^ 63 },
    ghost within: { steps ≤ bound },
}

/// The most entries of an instant at a place.
fn most_entries(place: Place) -> u64
    ensures { result ≡ most_entries_at place }
{
    match place {
        Place::Sched(_) => MAX_ENTRIES,
        Place::Unlinked => MAX_BLOCK_ENTRIES,
    }
}

/// Whether the two are one thread.
pub fn same_thread(a: ThreadId, b: ThreadId) -> bool
    ensures { result ≡ same_thread_as a b }
{
    a == b
}

impl Around {
    ghost use Rattle.loft_effect.specs.View.{around_of, pace_of};

    /// Whether the board has a place for the event.
    fn is_there(&self, event: EventId) -> bool
        ensures { result ≡ nat_lt event.0 (length self.now.board) }
    {
        (event.0 as usize) < self.board.events()
    }

    /// Whether the event is present.
    pub fn has(&self, event: EventId) -> bool
        ensures { result ≡ has event self.now.board }
    {
        self.is_there(event) && self.board.has(event)
    }

    /// The value of the event with this index, where it is there; no value has a negative index.
    pub fn value_at(&self, event: EventId, index: i64) -> Option<i64>
        ensures there { is_some result ≡ is_index index (length (event_values event self.now.board)) }
        ensures value { unwrap_or result (pos 0) ≡ indexed (event_values event self.now.board) index }
    {
        if self.is_there(event) && index >= 0 {
            self.board.value(event, index as usize)
        } else {
            None
        }
    }

    /// The event is present from now on, with one more value where there is one.
    pub fn generate(
        &mut self,
        alloc: Global,
        event: EventId,
        value: Option<i64>,
    ) -> Result<(), NoMemory>
        ensures board { OnOk result (around_of self.new
            ≡ record (around_of self.old) { board = generate event value self.old.board }) }
        ensures pace { OnOk result (pace_of self.new ≡ pace_of self.old) }
    {
        if !self.is_there(event) {
            return Ok(());
        }
        match value {
            None => self.board.generate(event),
            Some(v) => self.board.generate_value(alloc, event, v)?,
        }
        Ok(())
    }

    /// Whether the thread is known as ended.
    pub fn is_known(&self, thread: ThreadId) -> bool
        ensures { result ≡ is_known_in thread self.now.known }
    {
        self.known.contains(thread)
    }

    /// The shared variable of its place with this index has this value from now on.
    pub fn set_shared(&mut self, index: usize, n: i64)
        ensures shared { around_of self.new
            ≡ record (around_of self.old) { shared = slice_set self.old.shared index n } }
        ensures pace { pace_of self.new ≡ pace_of self.old }
    {
        if index < self.shared.len() {
            self.shared.set(index, n);
        }
    }

    /// Whether the instant may have one more entry.
    pub fn has_room(&self) -> bool
        ensures { result ≡ nat_lt self.now.entries (most_entries_at self.now.place) }
    {
        self.entries < most_entries(self.place)
    }

    /// This was done.
    pub fn push(&mut self, act: Act) -> Result<(), NoMemory>
        ensures done { OnOk result (around_of self.new ≡ with_act act (around_of self.old)) }
        ensures pace { OnOk result (pace_of self.new ≡ pace_of self.old) }
    {
        self.acts.push(act)
    }

    /// The thread that is created next.
    pub fn new_id(&self) -> ThreadId
        ensures { result ≡ new_id (around_of self.now) }
    {
        let maker = match self.place {
            Place::Sched(s) => Maker::Sched(s.0),
            Place::Unlinked => Maker::Source,
        };
        ThreadId {
            maker,
            seq: self.made,
        }
    }

    /// This was done, and is an entry of the instant.
    pub fn enter(&mut self, act: Act) -> Result<(), NoMemory>
        requires { self.old.entries < most_entries_at self.old.place }
        ensures entered { OnOk result (around_of self.new ≡ entered act (around_of self.old)) }
        ensures pace { OnOk result (pace_of self.new ≡ pace_of self.old) }
    {
        self.acts.push(act)?;
        self.entries += 1;
        Ok(())
    }

    /// A create was sent, which is an entry of the instant too.
    pub fn create(&mut self, act: Act) -> Result<(), NoMemory>
        requires { self.old.entries < most_entries_at self.old.place }
        ensures made { OnOk result (around_of self.new ≡ one_made (entered act (around_of self.old))) }
        ensures pace { OnOk result (pace_of self.new ≡ pace_of self.old) }
    {
        self.acts.push(act)?;
        self.entries += 1;
        self.made += 1;
        Ok(())
    }
}
