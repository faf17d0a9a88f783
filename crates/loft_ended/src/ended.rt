//! Threads that have ended, as a list with a set beside it.

ghost use Rattle.std.specs.Prelude.{◌≡◌, ◌++◌, ◌∷◌, [], length, OnOk, OnErr};
ghost use Rattle.loft_sense.specs.CanGo.{is_known};

use crate::keys::Keys;
use loft_base::{NoMemory, ThreadId};
use std::alloc::Global;
use std::marker::Model;

/// The threads that are known as ended, in the order in which they were told, with a set beside
/// them, so that one is found without a walk over all. Contracts see the list.
#[derive(Drop)]
pub struct Ended {
    threads: Vec<ThreadId>,
    keys: Keys,
}

impl Model for Ended {
    ghost use Rattle.std.specs.Prelude.{List};
    ghost use Rattle.loft_base.specs.declared.ids.ThreadId.{ThreadId as Id};
    ghost use Rattle.loft_ended.specs.Ended.{HasKeys};

    ghost Value = { List Id };

    ghost view = { λ e. e.threads.items };

    ghost invariant = { λ e. HasKeys e.keys e.threads.items };
}

impl Ended {
    /// None yet; it allocates nothing.
    pub fn new(alloc: Global) -> Ended
        ensures { result ≡ [] }
    {
        Ended {
            threads: Vec::new(alloc),
            keys: Keys::new(alloc),
        }
    }

    /// A thread has ended. Where it is out of memory the list stays.
    pub fn push(&mut self, thread: ThreadId) -> Result<(), NoMemory>
        ensures ok { OnOk result (self.new ≡ self.old ++ thread ∷ []) }
        ensures err { OnErr result (self.new ≡ self.old) }
    {
        self.threads.reserve(1)?;
        self.keys.insert(thread)?;
        self.threads.push_reserved(thread);
        Ok(())
    }

    /// Whether the thread has ended (docs/SEMANTICS.md, "CanGo"). It looks into the set.
    pub fn contains(&self, thread: ThreadId) -> bool
        ensures { result ≡ is_known thread self.now }
    {
        self.keys.contains(thread)
    }

    /// How often a thread was told as ended.
    pub fn len(&self) -> usize
        ensures { result ≡ length self.now }
    {
        self.threads.len()
    }

    /// The threads, in the order in which they were told.
    pub fn as_slice(&self) -> &[ThreadId]
        ensures { result.now ≡ self.now }
    {
        self.threads.as_slice()
    }
}
