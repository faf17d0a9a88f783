//! Runs that pause where something was done (docs/SEMANTICS.md, "Unlinked blocks").

ghost use Rattle.std.specs.Prelude.{◌≡◌, ◌≤◌};
ghost use Rattle.loft_tree.specs.Resolved.{Resolved};
ghost use Rattle.loft_sense.specs.Run.{going};
ghost use Rattle.loft_sense.specs.Tree.{tree};
ghost use Rattle.loft_effect.specs.View.{beside_of, steps_left};
ghost use Rattle.loft_walk.specs.Frames.{actives};
ghost use Rattle.loft_walk.specs.Midst.{paused_outcome, paused_left, bound_of, beside_anew};

use crate::running::Running;
use loft_base::Sequence;
use loft_effect::Beside;
use loft_orders::Acts;
use std::alloc::Global;
use std::mem;

/// A run in its midst: its frames, outermost first.
#[derive(Drop)]
pub struct Paused<'a> {
    pub(crate) running: Vec<Running<'a>>,
    pub(crate) beside: Beside,
}

/// Takes out the acts so far.
fn taken(beside: &mut Beside, alloc: Global) -> Acts
    ensures acts { result ≡ beside.old.around.acts }
    ensures beside { beside_of beside.new ≡ beside_anew (beside_of beside.old) }
    ensures left { steps_left beside.new.around ≡ steps_left beside.old.around }
{
    mem::replace(&mut beside.around.acts, Sequence::new(alloc))
}

impl<'a> Paused<'a> {
    ghost use Rattle.loft_walk.specs.Midst.{acts_of, outcome_without_acts};

    /// A run that goes on with these frames, outermost first, in at most so many further steps.
    pub(crate) fn new(running: Vec<Running<'a>>, mut beside: Beside, left: u64) -> Paused<'a>
        requires { left ≤ beside.around.bound }
        ensures outcome { (p : Resolved) → paused_outcome p result
            ≡ going (tree p) left (beside_of beside) (actives running.entry.items) }
        ensures left { paused_left result ≡ left }
        ensures bound { bound_of result ≡ beside.around.bound }
    {
        beside.around.steps = beside.around.bound - left;
        Paused { running, beside }
    }

    /// Takes out what was done so far.
    pub fn take_acts(&mut self, alloc: Global) -> Acts
        ensures acts { result ≡ acts_of self.old }
        ensures outcome { (p : Resolved) → paused_outcome p self.new ≡ outcome_without_acts p self.old }
        ensures left { paused_left self.new ≡ paused_left self.old }
    {
        taken(&mut self.beside, alloc)
    }
}
