//! Threads as they stand between two runs.

use loft_base::{EventId, ModuleId, Sequence, ThreadId, Values};

/// The turns still to come of the active `repeat` loops, from the outside in.
pub type Counts = Sequence<i64>;

/// The events of a wait, in the order in which the statement names them.
pub type Events = Sequence<EventId>;

/// The frames of a thread, outermost first.
pub type Frames = Sequence<Frame>;

/// Threads, in some order.
pub type Threads = Sequence<Thread>;

/// What a thread waits for.
#[derive(Drop)]
pub enum Wait {
    /// Nothing: it has not run yet where it is linked.
    New,
    /// So many further instants.
    Coop(i64),
    /// One of these events, for at most so many further instants where there is a number.
    Events { events: Events, left: Option<i64> },
    /// The value with this index of an event, in this instant.
    Index { event: EventId, at: i64 },
    /// A value that did not come in its instant.
    Next,
    /// The end of a thread, for at most so many further instants where there is a number.
    Join { thread: ThreadId, left: Option<i64> },
    /// For ever.
    Halt,
}

/// A module that a thread runs: where it stands in it, and what it keeps there.
#[derive(Drop)]
pub struct Frame {
    pub module: ModuleId,
    /// The number of the last stop, 0 where it has stood at none.
    pub stop: u32,
    pub counts: Counts,
    /// The parameters, then the locals.
    pub values: Values,
}

/// A thread that stands at a stop.
#[derive(Drop)]
pub struct Thread {
    pub id: ThreadId,
    pub code: i64,
    pub mask: i64,
    pub wait: Wait,
    pub frames: Frames,
}
