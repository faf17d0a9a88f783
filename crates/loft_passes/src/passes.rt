//! Whatever makes the passes of an instant.

ghost use Rattle.std.specs.Prelude.{◌≡◌, false, OnOk};
ghost use Rattle.loft_sense.specs.Passes.{passes as passes_over};
ghost use Rattle.loft_effect.specs.View.{around_of};
ghost use Rattle.loft_passes.specs.View.{runners_of, walk_of};

use crate::interpreter::Interpreter;
use crate::runner::Runner;
use loft_base::NoMemory;
use loft_effect::Around;
use std::alloc::Global;

/// Makes the passes of a scheduler's instants, one instant after the other.
pub trait Passes<I: Interpreter>: Drop {
    /// The passes of an instant that has begun, until one runs nobody. Where it is out of memory, nothing is said of the
    /// threads and of what stands around them.
    fn make(
        &mut self,
        alloc: Global,
        interpreter: &I,
        runners: &mut Vec<Runner>,
        around: &mut Around,
    ) -> Result<(), NoMemory>
        ensures passes { OnOk result (walk_of runners.new.items around.new false
            ≡ passes_over (I.program interpreter.now) (runners_of runners.old.items)
            (around_of around.old)) };
}
