//! The board of a scheduler.

ghost use Rattle.std.specs.Prelude.{◌≡◌, ◌<◌, Some, None, length, slice_get, IfOk, OnOk, OnErr};
ghost use Rattle.loft_board.specs.Board.{no_events, has, values, generate};

use crate::presence::Presence;
use loft_base::{EventId, NoMemory};
use std::alloc::Global;
use std::marker::Model;

/// The events of an instant (docs/SEMANTICS.md, "Board"): which are present, each with the values
/// that came with it, in order. An event can be present without a value. Contracts see, by the
/// number of the event, its values where it is present. Each call on an event needs it to be one of
/// those that the board was made for.
#[derive(Drop)]
pub struct Board {
    events: Vec<Presence>,
}

impl Model for Board {
    ghost use Rattle.loft_board.specs.Board.{Board};

    ghost Value = { Board };

    ghost view = { λ b. b.events.items };
}

impl Board {
    /// A board for so many events, none of them present.
    pub fn new(alloc: Global, events: u32) -> Result<Board, NoMemory>
        ensures { IfOk result (λ board. board ≡ no_events events) }
    {
        let mut absent = Vec::with_capacity(alloc, events as usize)?;
        for _ in 0..events {
            absent.push(Presence::absent(alloc))?;
        }
        Ok(Board { events: absent })
    }

    /// How many events it was made for.
    pub fn events(&self) -> usize
        ensures { result ≡ length self.now }
    {
        self.events.len()
    }

    /// No event is present any more, as an instant ends. It takes no memory, and keeps the room of
    /// the values.
    pub fn reset(&mut self)
        ensures { self.new ≡ no_events (length self.old) }
    {
        for event in self.events.iter_mut() {
            event.clear();
        }
    }

    /// The event is present from now on; its values stay. It takes no memory.
    pub fn generate(&mut self, e: EventId)
        requires { e.0 < length self.old }
        ensures { self.new ≡ generate e None self.old }
    {
        self.events[e.0 as usize].mark();
    }

    /// The event is present from now on, with one more value. Where it is out of memory the board
    /// stays.
    pub fn generate_value(&mut self, _alloc: Global, e: EventId, v: i64) -> Result<(), NoMemory>
        requires { e.0 < length self.old }
        ensures ok { OnOk result (self.new ≡ generate e (Some v) self.old) }
        ensures err { OnErr result (self.new ≡ self.old) }
    {
        self.events[e.0 as usize].push(v)
    }

    /// Whether the event is present.
    pub fn has(&self, e: EventId) -> bool
        requires { e.0 < length self.now }
        ensures { result ≡ has e self.now }
    {
        self.events[e.0 as usize].is_present()
    }

    /// How many values the event has so far.
    pub fn count(&self, e: EventId) -> usize
        requires { e.0 < length self.now }
        ensures { result ≡ length (values e self.now) }
    {
        self.events[e.0 as usize].values().len()
    }

    /// The value of the event with this index, from 0 in the order in which they came; None exactly
    /// where the index isn't below `count`.
    pub fn value(&self, e: EventId, n: usize) -> Option<i64>
        requires { e.0 < length self.now }
        ensures { result ≡ slice_get (values e self.now) n }
    {
        self.events[e.0 as usize].values().get(n).copied()
    }
}
