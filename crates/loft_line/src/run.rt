//! The passes of an instant over linked threads whose waits are kept.

ghost use Rattle.std.specs.Prelude.{◌≡◌, ℕ, ◌+◌, ◌*◌, ◌<◌, ◌≤◌, true, false, length, map, OnOk};
ghost use Rattle.loft_sense.specs.Instant.{runner_of as begin_of};
ghost use Rattle.loft_sense.specs.Passes.{passes as passes_over, steps_left};
ghost use Rattle.loft_effect.specs.View.{around_of};
ghost use Rattle.loft_passes.specs.View.{runners_of, walk_of};
ghost use Rattle.loft_waits.specs.Told.{ready_at, NobodyFrom};
ghost use Rattle.loft_ready.specs.Entered.{IsEntered, HasRunAt};

use crate::line::Line;
use crate::slots::{enter, leave};
use loft_base::NoMemory;
use loft_count::Steps;
use loft_counted_run::{CountedInterpreter, run_counted};
use loft_effect::Around;
use loft_ready::{from, tell_acts, tell_ends};
use loft_sense::acts_tell_what_was_done;
use std::alloc::Global;
use std::sync::ledger::Ledger;

impl Line {
    ghost use Rattle.loft_line.specs.Line.{runners_in, standings_in, IsLine, IsIdle, IsTold, KeepsRun};
    ghost use Rattle.loft_line.specs.Counts.{runs_and_steps};

    /// The thread at a position runs, and the waits are told what it did. The position is counted, and each step.
    fn run_at<I: CountedInterpreter, L: Ledger>(
        &mut self,
        alloc: Global,
        interpreter: &I,
        around: &mut Around,
        pos: usize,
        steps: &mut Steps<L>,
    ) -> Result<(), NoMemory>
        requires line { IsLine self.old }
        requires entered { IsEntered (runners_in self.old) (around_of around.old) self.old.waits }
        requires within { pos < length (runners_in self.old) }
        requires ready { ready_at self.old.waits pos ≡ true }
        ensures run { OnOk result (HasRunAt (I.program interpreter.now) pos (runners_in self.old)
            (around_of around.old) (runners_in self.new) (around_of around.new)) }
        ensures entered { OnOk result (IsEntered (runners_in self.new) (around_of around.new) self.new.waits) }
        ensures line { OnOk result (IsLine self.new) }
        ensures keeps { OnOk result (KeepsRun self.old self.new) }
        ensures counted { OnOk result (steps.new + 2 * steps_left (runners_of (runners_in self.new))
            ≤ steps.old + 2 * steps_left (runners_of (runners_in self.old))) }
        ensures least { OnOk result ((budget : ℕ) → steps.old + runs_and_steps budget (runners_of (runners_in self.new))
            ≤ steps.new + runs_and_steps budget (runners_of (runners_in self.old))) }
        ensures within { steps.new ≤ steps.old + 2 * steps_left (runners_of (runners_in self.old)) }
    {
        let acts = around.acts.len();
        let known = around.known.len();
        leave(&mut self.slots, &mut self.waits, pos);
        self.ran.set(pos);
        let runner = &mut self.slots[pos];
        run_counted(runner, alloc, interpreter, around, steps)?;
        acts_tell_what_was_done();
        tell_acts(
            &mut self.waits,
            &around.board,
            from(around.acts.as_slice(), acts),
        );
        tell_ends(alloc, &mut self.waits, from(around.known.as_slice(), known))?;
        enter(&mut self.slots, &mut self.waits, pos)?;
        Ok(())
    }

    /// The passes of an instant: the next thread that can go runs, in a circle, until nobody can. Each position at which a
    /// thread runs is counted, and each step.
    pub fn run<I: CountedInterpreter, L: Ledger>(
        &mut self,
        alloc: Global,
        interpreter: &I,
        around: &mut Around,
        steps: &mut Steps<L>,
    ) -> Result<(), NoMemory>
        requires idle { IsIdle self.old }
        requires told { IsTold self.old (around_of around.old) }
        ensures passes { OnOk result (walk_of (runners_in self.new) around.new false
            ≡ passes_over (I.program interpreter.now)
            (map (begin_of self.old.budget) (standings_in (runners_in self.old)))
            (around_of around.old)) }
        ensures line { OnOk result (IsLine self.new) }
        ensures told { OnOk result (IsTold self.new (around_of around.new)) }
        ensures over { OnOk result (NobodyFrom self.new.waits 0) }
        ensures keeps { OnOk result (KeepsRun self.old self.new) }
        ensures counted { steps.new
            ≤ steps.old + length (standings_in (runners_in self.old)) * (2 * self.old.budget + 2) }
        ensures least { OnOk result (steps.old
            + runs_and_steps self.old.budget (runners_of (runners_in self.new)) ≤ steps.new) }
    {
        let mut next = self.waits.next_after(usize::MAX);
        'runs: while let Some(pos) = next {
            self.run_at(alloc, interpreter, around, pos, steps)?;
            next = self.waits.next_after(pos);
        }
        Ok(())
    }
}
