//! Whatever runs the threads of a program, and counts their steps.

ghost use Rattle.std.specs.Prelude.{◌≡◌, ◌+◌, ◌-◌, ◌≤◌, IfOk, OnOk};
ghost use Rattle.loft_effect.specs.Outcomes.{outcome_of};
ghost use Rattle.loft_effect.specs.View.{around_of, steps_left};
ghost use Rattle.loft_sense.specs.Passes.{run_of};

use loft_base::NoMemory;
use loft_count::Steps;
use loft_effect::Around;
use loft_orders::{Stop, Thread};
use loft_passes::Interpreter;
use std::alloc::Global;
use std::sync::ledger::Ledger;

/// Runs the threads of one program, one at a time, and counts their steps.
pub trait CountedInterpreter: Interpreter {
    /// The same as `run`, and each step is counted. Where it is out of memory, no more steps are counted than the thread
    /// might have made.
    fn run_counted<L: Ledger>(
        &self,
        alloc: Global,
        thread: &mut Thread,
        around: &mut Around,
        steps: &mut Steps<L>,
    ) -> Result<Stop, NoMemory>
        ensures outcome { IfOk result (λ stop.
            outcome_of stop thread.new (around_of around.new) (steps_left around.new)
            ≡ run_of (Self.program self.now) thread.old (around_of around.old) (steps_left around.old)) }
        ensures bound { OnOk result (around.new.bound ≡ around.old.bound) }
        ensures counted { OnOk result (steps.new ≡ steps.old + (around.new.steps - around.old.steps)) }
        ensures within { steps.new ≤ steps.old + (around.old.bound - around.old.steps) };
}
