//! The passes of an instant (docs/SEMANTICS.md, "Passes").

ghost use Rattle.std.specs.Prelude.{◌≡◌, map, IfOk};
ghost use Rattle.loft_sense.specs.Instant.{runner_of as begin_of};
ghost use Rattle.loft_sense.specs.Passes.{pass as pass_over};
ghost use Rattle.loft_effect.specs.View.{around_of};
ghost use Rattle.loft_passes.specs.View.{standings_of, runners_of, walk_of};

use crate::interpreter::Interpreter;
use crate::passes::Passes;
use crate::runner::Runner;
use loft_base::NoMemory;
use loft_effect::Around;
use std::alloc::Global;

/// An instant begins for these threads.
pub fn begin_all(runners: &mut Vec<Runner>, budget: u64)
    ensures { runners_of runners.new.items
        ≡ map (begin_of budget) (standings_of runners.old.items) }
{
    for runner in runners.iter_mut() {
        runner.begin(budget);
    }
}

/// One pass: each thread that can go as it is reached runs. Whether one did.
fn pass<I: Interpreter>(
    alloc: Global,
    interpreter: &I,
    runners: &mut Vec<Runner>,
    around: &mut Around,
) -> Result<bool, NoMemory>
    ensures { IfOk result (λ ran. walk_of runners.new.items around.new ran
        ≡ pass_over (I.program interpreter.now) (runners_of runners.old.items)
        (around_of around.old)) }
{
    let mut ran = false;
    for runner in runners.iter_mut() {
        if runner.can_run(around) {
            runner.run(alloc, interpreter, around)?;
            ran = true;
        }
    }
    Ok(ran)
}

/// Walks over all threads in each pass.
#[derive(Clone, Copy)]
pub struct WalkAll;

impl<I: Interpreter> Passes<I> for WalkAll {
    fn make(
        &mut self,
        alloc: Global,
        interpreter: &I,
        runners: &mut Vec<Runner>,
        around: &mut Around,
    ) -> Result<(), NoMemory> {
        let mut ran = true;
        'passes: while ran {
            ran = pass(alloc, interpreter, runners, around)?;
        }
        Ok(())
    }
}
