//! What an instant did, and how a scheduler stands.

ghost use Rattle.std.specs.Prelude.{◌≡◌, IfOk};

use crate::line::Line;
use crate::order::{End, Marks, Sent, Sents};
use crate::thread::{Thread, Threads};
use loft_base::{EventId, NoMemory, Sequence, SharedId, ThreadId, TryClone};
use std::alloc::Global;
use std::marker::Model;

/// The acts of an instant, in the order in which they were made.
pub type Acts = Sequence<Act>;

/// The ends that a batch made.
pub type Ends = Sequence<Ended>;

/// The shared variables that an instant changed.
pub type Changes = Sequence<Change>;

/// Linked threads, in the order in which they were linked.
pub type Standings = Sequence<Standing>;

/// The values of shared variables.
pub type Numbers = Sequence<i64>;

/// An order and its address, in memory of their own: so acts and entries are small, of which most
/// send nothing or hold a list. Contracts see what is sent.
#[derive(Drop)]
pub struct BoxedSent {
    sent: Box<Sent>,
}

impl Model for BoxedSent {
    ghost use Rattle.loft_orders.specs.declared.order.Sent.{Sent};

    ghost Value = { Sent };

    ghost view = { λ boxed. boxed.sent.value };
}

impl BoxedSent {
    /// Puts what is sent into memory of its own. `NoMemory` comes where there is none.
    pub fn new(alloc: Global, sent: Sent) -> Result<BoxedSent, NoMemory>
        ensures { IfOk result (λ boxed. boxed ≡ sent) }
    {
        let sent = Box::new(alloc, sent)?;
        Ok(BoxedSent { sent })
    }

    /// A copy of what is sent, in memory of its own. `NoMemory` comes where there is none.
    pub fn copy_of(alloc: Global, sent: &Sent) -> Result<BoxedSent, NoMemory>
        ensures { IfOk result (λ boxed. boxed ≡ sent.now) }
    {
        BoxedSent::new(alloc, sent.try_clone(alloc)?)
    }

    /// What is sent.
    pub fn as_sent(&self) -> &Sent
        ensures { result.now ≡ self.now }
    {
        &self.sent
    }
}

/// What a thread did in an instant, as its report gives it.
#[derive(Drop)]
pub enum Act {
    Print {
        thread: ThreadId,
        line: Line,
    },
    Gen {
        thread: ThreadId,
        event: EventId,
        value: Option<i64>,
    },
    Out {
        thread: ThreadId,
        sent: BoxedSent,
    },
    End {
        thread: ThreadId,
        end: End,
    },
}

/// An end that an order made: the order's index in its batch, the thread, and how it ended.
#[derive(Clone, Copy)]
pub struct Ended {
    /// Counted from 0.
    pub index: u64,
    pub thread: ThreadId,
    pub end: End,
}

/// A shared variable and its new value.
#[derive(Clone, Copy)]
pub struct Change {
    pub shared: SharedId,
    pub value: i64,
}

/// A linked thread, and whether it is suspended.
#[derive(Drop)]
pub struct Standing {
    pub thread: Thread,
    pub suspended: bool,
}

/// All that an instant did.
#[derive(Drop)]
pub struct InstantNote {
    /// Instants are counted from 1.
    pub number: u64,
    /// One for each order of the batch.
    pub marks: Marks,
    /// The ends that the batch made.
    pub stopped: Ends,
    pub acts: Acts,
    /// What the instant sent: orders and ended threads as they were made, then the leavers.
    pub sent: Sents,
    /// The threads still linked that ran, in list order, as they stand after the close.
    pub stands: Threads,
    pub changed: Changes,
}

/// How a scheduler stands after its last instant.
#[derive(Drop)]
pub struct FinalState {
    pub linked: Standings,
    pub shared: Numbers,
}
