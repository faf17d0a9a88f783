//! Ids of threads in an order, as keys of sets.

ghost use Rattle.std.specs.Prelude.{◌≡◌};
ghost use Rattle.loft_finder.specs.Keys.{id_key};

use loft_base::{Maker, ThreadId};

/// Who made a thread, as a part of a key.
#[derive(Clone, Copy, PartialEq, Eq, PartialOrd, Ord)]
pub enum MakerKey {
    /// The source.
    Source,
    /// The scheduler with this number, counted from 0.
    Sched(u32),
    /// The client with this number, counted from 0.
    Client(u32),
}

/// The id of a thread, as a key. Its number is compared first: it tells most threads apart. Two threads
/// have the same key only if they have one id.
#[derive(Clone, Copy, PartialEq, Eq, PartialOrd, Ord)]
pub struct IdKey {
    seq: u64,
    maker: MakerKey,
}

impl IdKey {
    /// The key of a thread.
    pub fn of(thread: ThreadId) -> IdKey
        ensures { result ≡ id_key thread }
    {
        let maker = match thread.maker {
            Maker::Source => MakerKey::Source,
            Maker::Sched(n) => MakerKey::Sched(n),
            Maker::Client(n) => MakerKey::Client(n),
        };
        IdKey {
            seq: thread.seq,
            maker,
        }
    }
}
