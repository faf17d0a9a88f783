//! Whatever runs the threads of a program.

ghost use Rattle.std.specs.Prelude.{◌≡◌, ◌≤◌, ◌++◌, ℕ, length, IfOk, OnOk};
ghost use Rattle.loft_tree.specs.declared.heads.Place.TheVariants.{Unlinked};
ghost use Rattle.loft_tree.specs.declared.limits.TheConstants.{MAX_EVENTS, MAX_SHARED};
ghost use Rattle.loft_sense.specs.Machine.{Prog, heads as heads_of};
ghost use Rattle.loft_sense.specs.Run.{Outcome};
ghost use Rattle.loft_sense.specs.Passes.{run_of};
ghost use Rattle.loft_sense.specs.Instant.{sent_by};
ghost use Rattle.loft_sense.specs.Async.{block_sent};
ghost use Rattle.loft_effect.specs.View.{around_of, steps_left};
ghost use Rattle.loft_effect.specs.Outcomes.{outcome_of};
ghost use Rattle.loft_effect.specs.Progress.{progress_outcome, progress_left};

use loft_base::NoMemory;
use loft_effect::{Around, Progress};
use loft_orders::{Acts, Stop, Thread};
use loft_tree::Heads;
use std::alloc::Global;

/// Runs the threads of one program, one at a time: each to its stop, or in pieces, of which one ends where something was
/// done.
pub trait Interpreter: Drop {
    /// A run in its midst.
    type Paused: Drop;

    /// The program.
    ghost program: { Self → Prog };

    /// What a run in its midst comes to, with what it did so far.
    ghost comes_to: { Self → Self.Paused → Outcome };

    /// The steps that it may still make.
    ghost left: { Self → Self.Paused → ℕ };

    /// What the program declares.
    fn heads(&self) -> &Heads
        ensures heads { result.now ≡ heads_of (program self.now) }
        ensures few_events { length result.now.events ≤ MAX_EVENTS }
        ensures few_shared { length result.now.shared ≤ MAX_SHARED };

    /// A thread that can go runs from where it stood to the stop that holds it or by which it leaves, or to its end, in
    /// as many steps as what stands around it still allows. Where it is out of memory, nothing is said of the thread and
    /// of what stands around it.
    fn run(&self, alloc: Global, thread: &mut Thread, around: &mut Around) -> Result<Stop, NoMemory>
        ensures outcome { IfOk result (λ stop.
            outcome_of stop thread.new (around_of around.new) (steps_left around.new)
            ≡ run_of (program self.now) thread.old (around_of around.old) (steps_left around.old)) }
        ensures bound { OnOk result (around.new.bound ≡ around.old.bound) };

    /// The same run begins. It runs no statement so far.
    fn begin(
        &self,
        alloc: Global,
        thread: Thread,
        around: Around,
    ) -> Result<Progress<Self::Paused>, NoMemory>
        ensures outcome { IfOk result (λ progress. progress_outcome (comes_to self.now) progress
            ≡ run_of (program self.now) thread (around_of around) (steps_left around)) };

    /// A run goes on until something was done, or it stops. Each time it makes a step, or stops.
    fn go_on(&self, alloc: Global, run: Self::Paused) -> Result<Progress<Self::Paused>, NoMemory>
        ensures outcome { IfOk result (λ progress. progress_outcome (comes_to self.now) progress
            ≡ comes_to self.now run) }
        ensures fewer { IfOk result (λ progress. progress_left (left self.now) progress
            ≤ left self.now run) };

    /// Takes out of a run what it did so far. What the run of an unlinked thread sends is what these acts send, and then the
    /// rest.
    fn take_acts(&self, alloc: Global, run: &mut Self::Paused) -> Acts
        ensures sent { block_sent (comes_to self.now run.old)
            ≡ sent_by Unlinked result ++ block_sent (comes_to self.now run.new) }
        ensures left { left self.now run.new ≡ left self.now run.old };
}
