//! What waiting threads are listed under.

use loft_finder::IdKey;

/// What can make a waiting thread go.
#[derive(Clone, Copy, PartialEq, Eq, PartialOrd, Ord)]
pub(crate) enum Key {
    /// The event is present.
    Event(u32),
    /// The event has more values than this index.
    Value(u32, u64),
    /// The thread has ended.
    End(IdKey),
    /// So many instants have closed.
    Close(u64),
}
