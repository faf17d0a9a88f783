//! What a thread of the host program does.

use loft_base::NoMemory;
use loft_baton::{Baton, Pass};
use loft_code::Code;
use std::alloc::Global;
use std::sync::Wait;

/// What a caller wants next (docs/EMBEDDING.md, "A whole run").
#[derive(Clone, Copy)]
pub enum Next {
    /// Another turn, in the next round.
    Go,
    /// Another turn, once the actors of the source have nothing left to do.
    Rest,
    /// No further turn.
    Done,
}

impl Next {
    /// Whether the caller has a turn in this round; `is_quiet` says that the round before added nothing.
    pub(crate) fn is_due(self, is_quiet: bool) -> bool {
        match self {
            Next::Go => true,
            Next::Rest => is_quiet,
            Next::Done => false,
        }
    }

    /// Whether there is no further turn.
    pub(crate) fn is_done(self) -> bool {
        match self {
            Next::Done => true,
            Next::Go | Next::Rest => false,
        }
    }
}

/// What a thread of the host program does: it gives orders, as a client that the source doesn't declare.
pub trait Caller: Drop {
    ghost use Rattle.loft_host.specs.Callers.{IsAtWork, GoesOn};

    /// One turn, on a thread of its own, while the actors of the source go on: it gives orders by the
    /// calls of `loft_ft` with this pass, and says what it wants next. It may wait for the world.
    ///
    /// # Errors
    ///
    /// Out of memory: the run ends.
    fn turn<R: Wait>(
        &mut self,
        rt: &R,
        alloc: Global,
        b: &Baton,
        c: &Code,
        p: &mut Pass,
    ) -> Result<Next, NoMemory>
        requires at_work { IsAtWork b.now c.now p.old }
        ensures goes_on { GoesOn b.now c.now p.old p.new };
}
