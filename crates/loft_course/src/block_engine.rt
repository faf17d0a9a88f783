//! Whatever runs the blocks of unlinked threads for one worker.

ghost use Rattle.std.specs.Prelude.{◌≡◌, ℕ, List, IfOk};
ghost use Rattle.loft_orders.specs.declared.order.Sent.{Sent as SentOrder};
ghost use Rattle.loft_sense.specs.Async.{async, GivesNext};
ghost use Rattle.loft_sense.specs.Machine.{Prog};

use loft_base::NoMemory;
use loft_orders::{Sent, Thread};
use std::alloc::Global;

/// Runs the blocks of unlinked threads of a program, one after another, and gives the orders of each
/// one by one (docs/SEMANTICS.md, "Unlinked blocks").
pub trait BlockEngine: Drop {
    /// The program that it runs.
    ghost program: { Self → Prog };

    /// How many steps a block makes at most.
    ghost bound: { Self → ℕ };

    /// What the block that it has begun last has still to send; nothing before the first.
    ghost left: { Self → List SentOrder };

    /// Begins the block of a thread.
    fn begin(&mut self, thread: Thread)
        ensures left { left self.new ≡ async (program self.old) thread (bound self.old) }
        ensures same_program { program self.new ≡ program self.old }
        ensures same_bound { bound self.new ≡ bound self.old };

    /// The next order of the block. None exactly where nothing is left of it.
    fn next(&mut self, alloc: Global) -> Result<Option<Sent>, NoMemory>
        ensures next { IfOk result (λ sent. GivesNext sent (left self.old) (left self.new)) }
        ensures same_program { program self.new ≡ program self.old }
        ensures same_bound { bound self.new ≡ bound self.old };
}
