//! Runs of linked threads that are counted (docs/SEMANTICS.md, "Waiting lists").

ghost use Rattle.std.specs.Prelude.{◌≡◌, ◌+◌, ◌-◌, ◌≤◌, None, OnOk};
ghost use Rattle.loft_effect.specs.View.{around_of};
ghost use Rattle.loft_passes.specs.View.{linked_of, runner_to};
ghost use Rattle.loft_sense.specs.Passes.{run_of, runners_after, around_after};

use crate::interpreter::CountedInterpreter;
use loft_base::NoMemory;
use loft_count::Steps;
use loft_effect::Around;
use loft_orders::Stop;
use loft_passes::Runner;
use std::alloc::Global;
use std::sync::ledger::Ledger;

/// A linked thread runs. That it does is counted, and each of its steps.
pub fn run_counted<I: CountedInterpreter, L: Ledger>(
    runner: &mut Runner,
    alloc: Global,
    interpreter: &I,
    around: &mut Around,
    steps: &mut Steps<L>,
) -> Result<(), NoMemory>
    ensures linked { OnOk result (linked_of runner.new ≡ runners_after (runner_to None runner.old)
        (run_of (I.program interpreter.now) runner.old.thread (around_of around.old)
        (runner.old.bound - runner.old.steps))) }
    ensures around { OnOk result (around_of around.new ≡ around_after
        (run_of (I.program interpreter.now) runner.old.thread (around_of around.old)
        (runner.old.bound - runner.old.steps))) }
    ensures bound { OnOk result (runner.new.bound ≡ runner.old.bound) }
    ensures runs { OnOk result (runner.new.runs ≤ runner.old.runs + 1) }
    ensures counted { OnOk result (steps.new ≡ steps.old + 1 + (runner.new.steps - runner.old.steps)) }
    ensures within { steps.new ≤ steps.old + 1 + (runner.old.bound - runner.old.steps) }
{
    steps.tick();
    around.bound = runner.bound;
    around.steps = runner.steps;
    runner.stop = interpreter.run_counted(alloc, &mut runner.thread, around, steps)?;
    runner.steps = around.steps;
    match runner.stop {
        Stop::Holds | Stop::Leaves(_) => runner.runs += 1,
        Stop::Ends(_) => {}
    }
    Ok(())
}
