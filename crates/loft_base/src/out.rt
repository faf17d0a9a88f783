//! A text that is written piece by piece.

ghost use Rattle.std.specs.Prelude.{◌≡◌, ◌++◌, [], true, IfOk};

use crate::errors::NoMemory;
use std::alloc::Global;

/// A text that is written piece by piece, and whether memory was enough so far. Who writes asks
/// once, at the end, whether all of it is there (`done`).
#[derive(Drop)]
pub struct Out {
    /// The bytes so far; where memory ran out some are missing.
    pub text: Vec<u8>,
    /// Whether memory was enough for all that was written so far.
    pub is_whole: bool,
}

impl Out {
    /// The empty text; it allocates nothing.
    pub fn new(alloc: Global) -> Out
        ensures text { result.text.items ≡ [] }
        ensures whole { result.is_whole ≡ true }
    {
        Out {
            text: Vec::new(alloc),
            is_whole: true,
        }
    }

    /// Appends bytes.
    pub fn put(&mut self, bytes: &[u8])
        ensures before { self.new.is_whole ≡ true → self.old.is_whole ≡ true }
        ensures text { self.new.is_whole ≡ true → self.new.text.items ≡ self.old.text.items ++ bytes.now }
    {
        match self.text.extend_from_slice(bytes) {
            Ok(()) => {}
            Err(_) => self.is_whole = false,
        }
    }

    /// The text, if memory was enough for it.
    ///
    /// # Errors
    ///
    /// Out of memory: it ran out before.
    pub fn done(self) -> Result<Vec<u8>, NoMemory>
        ensures whole { IfOk result (λ _. self.is_whole ≡ true) }
        ensures text { IfOk result (λ text. text.items ≡ self.text.items) }
    {
        if self.is_whole {
            Ok(self.text)
        } else {
            Err(NoMemory)
        }
    }
}
