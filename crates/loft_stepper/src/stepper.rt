//! What steps through code.

ghost use Rattle.std.specs.Prelude.{◌≡◌, ◌<◌, IfOk, OnOk};
ghost use Rattle.loft_code.specs.View.{automata_of};
ghost use Rattle.loft_sense.specs.Machine.{Code as ByCode};
ghost use Rattle.loft_sense.specs.Passes.{run_of};
ghost use Rattle.loft_effect.specs.View.{around_of, steps_left};
ghost use Rattle.loft_effect.specs.Outcomes.{outcome_of};
ghost use Rattle.loft_step.specs.Midst.{paused_outcome, paused_left};

use loft_base::NoMemory;
use loft_code::Code;
use loft_count::Steps;
use loft_counted_run::CountedInterpreter;
use loft_effect::{Around, Progress};
use loft_orders::{Acts, Stop, Thread};
use loft_passes::Interpreter;
use loft_step::{Paused, begin, go, go_on};
use loft_tree::Heads;
use std::alloc::Global;
use std::marker::Brand;
use std::sync::ledger::{Blank, Ledger};

/// Runs threads by the operations of valid code.
#[derive(Clone, Copy)]
pub struct Stepper<'a> {
    pub code: &'a Code,
}

/// A run whose steps are counted for nobody.
fn run<L: Ledger>(
    alloc: Global,
    code: &Code,
    thread: &mut Thread,
    around: &mut Around,
    blank: Blank,
) -> Result<Stop, NoMemory>
    requires name { blank.name ≡ L.name }
    requires parts { blank.parts ≡ L.parts }
    requires some { 0 < L.parts }
    ensures outcome { IfOk result (λ stop.
        outcome_of stop thread.new (around_of around.new) (steps_left around.new)
        ≡ run_of (ByCode (automata_of code.now)) thread.old
        (around_of around.old) (steps_left around.old)) }
    ensures bound { OnOk result (around.new.bound ≡ around.old.bound) }
{
    let mut steps = Steps::<L>::new(blank);
    go(alloc, code, thread, around, &mut steps)
}

impl Interpreter for Stepper<'_> {
    type Paused = Paused;

    ghost program = { λ s. ByCode (automata_of s.code.now) };

    ghost comes_to = { λ s run. paused_outcome (automata_of s.code.now) run };

    ghost left = { λ s run. paused_left run };

    fn heads(&self) -> &Heads {
        &self.code.program().heads
    }

    fn run(
        &self,
        alloc: Global,
        thread: &mut Thread,
        around: &mut Around,
    ) -> Result<Stop, NoMemory> {
        run::<Brand>(alloc, self.code, thread, around, Blank::new(1))
    }

    fn begin(
        &self,
        _alloc: Global,
        thread: Thread,
        around: Around,
    ) -> Result<Progress<Paused>, NoMemory> {
        begin(self.code, thread, around)
    }

    fn go_on(&self, alloc: Global, run: Paused) -> Result<Progress<Paused>, NoMemory> {
        go_on(alloc, self.code, run)
    }

    fn take_acts(&self, alloc: Global, run: &mut Paused) -> Acts {
        run.take_acts(alloc)
    }
}

impl CountedInterpreter for Stepper<'_> {
    fn run_counted<L: Ledger>(
        &self,
        alloc: Global,
        thread: &mut Thread,
        around: &mut Around,
        steps: &mut Steps<L>,
    ) -> Result<Stop, NoMemory> {
        go(alloc, self.code, thread, around, steps)
    }
}
