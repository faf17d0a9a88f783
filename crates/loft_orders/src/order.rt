//! Orders to schedulers, and how threads end.

use crate::shared_thread::SharedThread;
use crate::shared_values::SharedValues;
use loft_base::{EventId, ModuleId, SchedId, Sequence, ThreadId};

/// Orders, in the order in which they were accepted.
pub type Orders = Sequence<Order>;

/// Orders with their addresses, in the order in which they were made.
pub type Sents = Sequence<Sent>;

/// What became of each order of a batch.
pub type Marks = Sequence<Mark>;

/// A point in a program: a module, and the number of a stop in it.
#[derive(Clone, Copy)]
pub struct At {
    pub module: ModuleId,
    pub stop: u32,
}

/// How a thread ends.
#[derive(Clone, Copy)]
pub enum End {
    /// At the end of its module.
    Done,
    /// By a `stop`.
    Stopped,
    /// As it was created, where too many threads were linked.
    Full,
    /// By a division by zero.
    Div(At),
    /// By one frame too many.
    Deep(At),
    /// By one step too many in an instant.
    Over(At),
    /// By one entry too many in an instant.
    Flood(At),
}

/// What a scheduler is asked to do as its next instant begins.
#[derive(Drop)]
pub enum Order {
    Create {
        thread: ThreadId,
        module: ModuleId,
        args: SharedValues,
    },
    Arrive(SharedThread),
    Stop(ThreadId),
    Suspend(ThreadId),
    Resume(ThreadId),
    Broadcast {
        event: EventId,
        value: Option<i64>,
    },
    Ended {
        thread: ThreadId,
        end: End,
    },
}

/// To whom an order goes.
#[derive(Clone, Copy)]
pub enum To {
    Sched(SchedId),
    /// Each scheduler but this one.
    Others(SchedId),
    All,
    Workers,
}

/// How a run of a thread stops.
#[derive(Clone, Copy)]
pub enum Stop {
    /// A stop holds it.
    Holds,
    /// It leaves.
    Leaves(To),
    Ends(End),
}

/// An order and its address.
#[derive(Drop)]
pub struct Sent {
    pub to: To,
    pub order: Order,
}

/// What became of an order.
#[derive(Clone, Copy)]
pub enum Mark {
    Done,
    /// Its thread was not linked here.
    Void,
    /// Too many threads were linked.
    Full,
}
