//! The linked threads of an instant (docs/SEMANTICS.md, "Passes").

ghost use Rattle.std.specs.Prelude.{◌≡◌, ◌≤◌, ◌-◌, [], ◌∷◌, false, None, OnOk};
ghost use Rattle.loft_sense.specs.Instant.{runner_of as begin_of};
ghost use Rattle.loft_sense.specs.Passes.{run_of, runners_after, around_after};
ghost use Rattle.loft_effect.specs.View.{around_of};

use crate::interpreter::Interpreter;
use loft_base::NoMemory;
use loft_effect::Around;
use loft_orders::{Stop, Thread};
use std::alloc::Global;

/// A linked thread, and what it has done in an instant so far.
#[derive(Drop)]
pub struct Runner {
    pub thread: Thread,
    pub suspended: bool,
    /// How its last run in this instant stopped; `Holds` where it hasn't run.
    pub stop: Stop,
    /// How often it has run in this instant.
    pub runs: u64,
    /// The steps that it has made in this instant.
    pub steps: u64,
    /// How many steps it may make in this instant.
    pub bound: u64,
    ghost few: { runs ≤ steps },
    ghost within: { steps ≤ bound },
}

impl Runner {
    ghost use Rattle.loft_passes.specs.View.{standing_of, linked_of, runner_to, is_held as is_held_by, can_run};

    /// A thread that comes to be linked.
    pub fn new(thread: Thread) -> Runner
        ensures { standing_of result ≡ record { thread = thread; suspended = false } }
    {
        Runner {
            thread,
            suspended: false,
            stop: Stop::Holds,
            runs: 0,
            steps: 0,
            bound: 0,
        }
    }

    /// It is suspended from now on, or isn't any more.
    pub fn suspend(&mut self, suspended: bool)
        ensures { standing_of self.new ≡ record (standing_of self.old) { suspended = suspended } }
    {
        self.suspended = suspended;
    }

    /// An instant begins.
    pub fn begin(&mut self, budget: u64)
        ensures { linked_of self.new ≡ begin_of budget (standing_of self.old) ∷ [] }
    {
        self.stop = Stop::Holds;
        self.runs = 0;
        self.steps = 0;
        self.bound = budget;
    }

    /// Whether it has neither left nor ended.
    pub fn is_held(&self) -> bool
        ensures { result ≡ is_held_by self.now.stop }
    {
        match self.stop {
            Stop::Holds => true,
            Stop::Leaves(_) | Stop::Ends(_) => false,
        }
    }

    /// Whether it is held, and can go.
    pub fn can_run(&self, around: &Around) -> bool
        ensures { result ≡ can_run self.now (around_of around.now) }
    {
        self.is_held() && (!self.suspended && around.is_over(&self.thread.wait))
    }

    /// It runs.
    pub fn run<I: Interpreter>(
        &mut self,
        alloc: Global,
        interpreter: &I,
        around: &mut Around,
    ) -> Result<(), NoMemory>
        ensures linked { OnOk result (linked_of self.new ≡ runners_after (runner_to None self.old)
            (run_of (I.program interpreter.now) self.old.thread (around_of around.old)
            (self.old.bound - self.old.steps))) }
        ensures around { OnOk result (around_of around.new ≡ around_after
            (run_of (I.program interpreter.now) self.old.thread (around_of around.old)
            (self.old.bound - self.old.steps))) }
    {
        around.bound = self.bound;
        around.steps = self.steps;
        self.stop = interpreter.run(alloc, &mut self.thread, around)?;
        self.steps = around.steps;
        match self.stop {
            Stop::Holds | Stop::Leaves(_) => self.runs += 1,
            Stop::Ends(_) => {}
        }
        Ok(())
    }
}
