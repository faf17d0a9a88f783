//! The entries of a history, and who makes them (docs/SEMANTICS.md, "History").

use crate::note::BoxedSent;
use crate::order::{Orders, Sents};
use crate::shared_thread::SharedThread;
use loft_base::SchedId;

/// Who makes entries: a scheduler, a worker or a client, the last two by their number from 0.
#[derive(Clone, Copy)]
pub enum Actor {
    Sched(SchedId),
    Worker(u32),
    Client(u32),
}

/// One event of a run.
#[derive(Drop)]
pub enum Entry {
    /// A scheduler takes all the orders that wait for it.
    Take { s: SchedId, batch: Orders },
    /// All that a scheduler's instant sent is accepted.
    Give { s: SchedId, sent: Sents },
    /// A worker takes the unlinked thread that has waited longest.
    Pick { w: u32, job: SharedThread },
    /// One order of a worker is accepted.
    Post { w: u32, sent: BoxedSent },
    /// One order of a client is accepted.
    Client { c: u32, sent: BoxedSent },
}
