//! Laws of runs. Each is what the contract of an empty function says.

ghost use Rattle.loft_base.specs.declared.options.RunOptions.{RunOptions};
ghost use Rattle.loft_sense.specs.Machine.{Prog};
ghost use Rattle.loft_soundness.specs.WellFormed.{IsWellFormed};
ghost use Rattle.loft_base.specs.Options.{HasWorkers};
ghost use Rattle.loft_course.specs.Course.{CanRun};

use loft_conservation::blocks_keep_their_thread;
use loft_history::made_histories_are_legal;
use loft_soundness::waiting_orders_fit;

/// A well-formed program, which is a placed source or valid code, can be run with any options that
/// have a worker (docs/SEMANTICS.md, "History").
pub fn well_formed_programs_can_run()
    ensures { (x : Prog) (o : RunOptions) → IsWellFormed x → HasWorkers o → CanRun x o }
{
    made_histories_are_legal();
    waiting_orders_fit();
    blocks_keep_their_thread();
}
