//! The engine that steps through code.

ghost use Rattle.std.specs.Prelude.{◌≡◌, ◌+◌, ◌*◌, ◌≤◌, true, false, All, length, IfOk, OnErr, OnOk};
ghost use Rattle.loft_code.specs.View.{automata_of};
ghost use Rattle.loft_sense.specs.Machine.{Code as ByCode};
ghost use Rattle.loft_base.specs.Options.{IsInRange};
ghost use Rattle.loft_line_engine.specs.Counts.{least_counted};
ghost use Rattle.loft_sense.specs.Apply.{apply};
ghost use Rattle.loft_sense.specs.Fits.{Fits};
ghost use Rattle.loft_sense.specs.Instant.{instant as instant_of};
ghost use Rattle.loft_sense.specs.Rest.{is_spent};

use loft_base::{Limits, NoMemory, SchedId};
use loft_code::Code;
use loft_count::Steps;
use loft_line_engine::LineEngine;
use loft_orders::{FinalState, InstantNote, Orders};
use loft_sense::Engine;
use loft_stepper::Stepper;
use std::alloc::Global;
use std::sync::ledger::Ledger;

/// The engine that steps through valid code: an instant changes what the definitions change, and after a failed
/// allocation it makes no further one.
#[derive(Drop)]
pub struct CodeEngine<'a> {
    engine: LineEngine<Stepper<'a>>,
}

impl<'a> CodeEngine<'a> {
    ghost use Rattle.loft_engine.specs.CodeEngine.{code_of, scheduler_of, limits_of, machine_of, has_failed};
    ghost use Rattle.loft_sense.specs.Machine.{empty};

    /// An engine that has made no instant, for valid code. `NoMemory` comes where an allocation fails.
    pub fn new(
        alloc: Global,
        c: &'a Code,
        s: SchedId,
        l: Limits,
    ) -> Result<CodeEngine<'a>, NoMemory>
        requires range { IsInRange l }
        ensures program { IfOk result (λ e. code_of e ≡ ByCode (automata_of c.now)) }
        ensures scheduler { IfOk result (λ e. scheduler_of e ≡ s) }
        ensures limits { IfOk result (λ e. limits_of e ≡ l) }
        ensures machine { IfOk result (λ e. machine_of e ≡ empty (code_of e) s) }
        ensures works { IfOk result (λ e. has_failed e ≡ false) }
    {
        let engine = LineEngine::new(alloc, Stepper { code: c }, s, l)?;
        Ok(CodeEngine { engine })
    }

    /// One instant, as `take` makes it, in which each order of the batch is counted, each position at which a thread runs,
    /// and each step. With each thread that is linked once the batch is applied it counts at most twice the budget and 2,
    /// beside the orders, also where it is out of memory.
    pub fn take_counted<L: Ledger>(
        &mut self,
        alloc: Global,
        batch: &Orders,
        steps: &mut Steps<L>,
    ) -> Result<InstantNote, NoMemory>
        requires unspent { has_failed self.old ≡ false → is_spent (code_of self.old) (limits_of self.old) (machine_of self.old) ≡ false }
        requires fits { All (Fits (code_of self.old) (scheduler_of self.old)) batch.now }
        ensures note { IfOk result (λ note. note ≡ (instant_of (code_of self.old) (limits_of self.old) (machine_of self.old) batch.now).note) }
        ensures machine { OnOk result (machine_of self.new ≡ (instant_of (code_of self.old) (limits_of self.old) (machine_of self.old) batch.now).machine) }
        ensures no_memory { OnErr result (has_failed self.new ≡ true) }
        ensures works { OnOk result ((has_failed self.old ≡ false) × (has_failed self.new ≡ false)) }
        ensures same_program { code_of self.new ≡ code_of self.old }
        ensures same_scheduler { scheduler_of self.new ≡ scheduler_of self.old }
        ensures same_limits { limits_of self.new ≡ limits_of self.old }
        ensures counted { steps.new ≤ steps.old
            + (length (apply (code_of self.old) (machine_of self.old) batch.now).linked * (2 * (limits_of self.old).budget + 2) + length batch.now) }
        ensures least { OnOk result (steps.old + least_counted (code_of self.old) (limits_of self.old) (machine_of self.old) batch.now ≤ steps.new) }
    {
        self.engine.take_counted(alloc, batch, steps)
    }
}

impl Engine for CodeEngine<'_> {
    ghost use Rattle.loft_engine.specs.CodeEngine.{code_of, scheduler_of, limits_of, machine_of, has_failed as has_failed_of};
    ghost use Rattle.std.specs.Prelude.{refl};

    ghost program = { code_of };

    ghost scheduler = { scheduler_of };

    ghost limits = { limits_of };

    ghost machine = { machine_of };

    ghost has_failed = { has_failed_of };

    fn take(&mut self, alloc: Global, batch: &Orders) -> Result<InstantNote, NoMemory> {
        self.engine.take(alloc, batch)
    }

    fn resting(&self) -> bool {
        self.engine.resting()
    }

    fn spent(&self) -> bool {
        self.engine.spent()
    }

    fn instant(&self) -> u64 {
        self.engine.instant()
    }

    fn last(&self, alloc: Global) -> Result<FinalState, NoMemory> {
        self.engine.last(alloc)
    }

    ghost is_of_scheduler = { λ e. refl };
}
