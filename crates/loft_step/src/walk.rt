//! Steps of the innermost frame of a thread (docs/SEMANTICS.md, "Run").

ghost use Rattle.std.specs.Prelude.{◌≡◌, ◌+◌, ◌<◌, ◌≤◌, IfOk, OnOk};
ghost use Rattle.loft_code.specs.View.{automata_of};
ghost use Rattle.loft_effect.specs.View.{around_of};

use crate::jump::{ends_at, landing, lines_of};
use crate::running::Running;
use crate::step::Move;
use loft_base::NoMemory;
use loft_code::Code;
use loft_count::Steps;
use loft_effect::{Around, Beside};
use loft_orders::End;
use std::alloc::Global;
use std::sync::ledger::Ledger;

/// The thread makes a step.
pub fn count<L: Ledger>(around: &mut Around, steps: &mut Steps<L>)
    requires { around.old.steps < around.old.bound }
    ensures same { around_of around.new ≡ around_of around.old }
    ensures bound { around.new.bound ≡ around.old.bound }
    ensures made { around.new.steps ≡ around.old.steps + 1 }
    ensures counted { steps.new ≡ steps.old + 1 }
{
    prove!(around.steps < around.bound);
    around.steps += 1;
    steps.tick();
}

impl Running {
    ghost use Rattle.loft_step.specs.Frames.{Walks, IfEnters};

    /// Steps of the frame, until it is dropped or something else becomes of its thread; where it pauses, also until
    /// something was done.
    pub fn walk<L: Ledger>(
        &mut self,
        alloc: Global,
        code: &Code,
        beside: &mut Beside,
        pauses: bool,
        steps: &mut Steps<L>,
    ) -> Result<Move, NoMemory>
        ensures walks { IfOk result (λ move. Walks (automata_of code.now) self.old beside.old move self.new beside.new) }
        ensures enters { IfOk result (λ move. IfEnters move (automata_of code.now) self.new beside.old beside.new) }
        ensures bound { OnOk result (beside.new.around.bound ≡ beside.old.around.bound) }
        ensures grows { OnOk result (beside.old.around.steps ≤ beside.new.around.steps) }
        ensures counted { OnOk result (steps.new + beside.old.around.steps ≡ steps.old + beside.new.around.steps) }
        ensures within { steps.new + beside.old.around.steps ≤ steps.old + beside.old.around.bound }
    {
        let heads = code.heads();
        let lines = lines_of(code, self.scope.at.module);
        let mut other = Move::Return;
        'stepping: loop {
            let (number, line) = landing(lines, self.op);
            if ends_at(line) {
                return Ok(Move::Return);
            }
            if beside.around.steps == beside.around.bound {
                return Ok(Move::End(End::Over(self.scope.at)));
            }
            count(&mut beside.around, steps);
            let Some(line) = line else {
                return Ok(Move::Return);
            };
            if !self.step(alloc, heads, beside, number, &line.op, &mut other)? {
                return Ok(other);
            }
            if pauses && !beside.around.acts.is_empty() {
                return Ok(Move::Pause);
            }
        }
    }
}
