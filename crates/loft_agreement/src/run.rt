//! One run of a thread, made twice (docs/SEMANTICS.md, "Run", and docs/CODE.md, "Code that implements a program").

ghost use Rattle.std.specs.Prelude.{◌≡◌, ◌+◌, ◌-◌, IfOk};
ghost use Rattle.loft_tree.specs.ProgramView.{program_of};
ghost use Rattle.loft_tree.specs.Resolved.{resolved_of};
ghost use Rattle.loft_code.specs.View.{automata_of};
ghost use Rattle.loft_sense.specs.Machine.{Tree, Code as ByCode};
ghost use Rattle.loft_sense.specs.Passes.{run_of};
ghost use Rattle.loft_sense.specs.Stands.{Stands};
ghost use Rattle.loft_effect.specs.View.{around_of, steps_left};
ghost use Rattle.loft_effect.specs.Outcomes.{gone_of};
ghost use Rattle.loft_translation.specs.Compiled.{compiled};

use loft_base::NoMemory;
use loft_code::Code;
use loft_effect::{Around, Gone, Outcome};
use loft_orders::{Stop, Thread};
use loft_place::Placed;
use loft_step::{Steps, go as step};
use loft_translation::compiled_code_implements;
use loft_walk::go as walk;
use std::alloc::Global;
use std::sync::ledger::Ledger;

/// A thread that can go, and what stands around it.
#[derive(Drop)]
pub struct Ready {
    pub thread: Thread,
    pub around: Around,
}

/// How one run of a thread ends by the statements of its program, and by the program's code.
#[derive(Drop)]
pub struct BothWays {
    pub by_tree: Gone,
    pub by_code: Gone,
}

/// One run of a thread by code.
fn run_code<L: Ledger>(
    alloc: Global,
    code: &Code,
    ready: Ready,
    steps: &mut Steps<L>,
) -> Result<Gone, NoMemory>
    ensures gone { IfOk result (λ gone. gone_of gone ≡ run_of (ByCode (automata_of code.now))
        ready.thread (around_of ready.around) (steps_left ready.around)) }
    ensures counted { IfOk result (λ gone.
        steps.new ≡ steps.old + (gone.around.steps - ready.around.steps)) }
{
    let Ready {
        mut thread,
        mut around,
    } = ready;
    let outcome = match step(alloc, code, &mut thread, &mut around, steps)? {
        Stop::Holds => Outcome::Held(thread),
        Stop::Leaves(to) => Outcome::Left(thread, to),
        Stop::Ends(end) => Outcome::Ended(end),
    };
    Ok(Gone { outcome, around })
}

/// Runs a thread of a placed program by its statements, and an equal one by the code that the compiler makes of it. Both
/// end alike: in the same way, with the same thread and the same around it, and with as many steps left. `tree` says
/// which end it is, and `counted` that the steps of the second run were counted. `NoMemory` comes where an allocation
/// fails.
pub fn both_ways<L: Ledger>(
    alloc: Global,
    placed: &Placed,
    code: &Code,
    walks: Ready,
    steps_through: Ready,
    steps: &mut Steps<L>,
) -> Result<BothWays, NoMemory>
    requires compiled { automata_of code.now ≡ compiled (resolved_of (program_of placed.now)) }
    requires thread { steps_through.thread ≡ walks.thread }
    requires around { around_of steps_through.around ≡ around_of walks.around }
    requires left { steps_left steps_through.around ≡ steps_left walks.around }
    requires stands { Stands (Tree (resolved_of (program_of placed.now)))
        walks.thread walks.around.place }
    ensures alike { IfOk result (λ both. gone_of both.by_code ≡ gone_of both.by_tree) }
    ensures tree { IfOk result (λ both. gone_of both.by_tree
        ≡ run_of (Tree (resolved_of (program_of placed.now)))
        walks.thread (around_of walks.around) (steps_left walks.around)) }
    ensures counted { IfOk result (λ both.
        steps.new ≡ steps.old + (both.by_code.around.steps - steps_through.around.steps)) }
{
    compiled_code_implements();
    let by_tree = walk(alloc, placed.program(), walks.thread, walks.around)?;
    let by_code = run_code(alloc, code, steps_through, steps)?;
    Ok(BothWays { by_tree, by_code })
}
