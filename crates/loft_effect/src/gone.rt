//! How a run of a thread ends (docs/SEMANTICS.md, "Run").

ghost use Rattle.std.specs.Prelude.{◌≡◌};

use crate::around::Around;
use loft_orders::{End, Stop, Thread, To};

/// How a run of a thread ends, with the thread where it goes on later.
#[derive(Drop)]
pub enum Outcome {
    /// A stop holds it.
    Held(Thread),
    Left(Thread, To),
    Ended(End),
}

/// How a run of a thread ends, and what it leaves around it.
#[derive(Drop)]
pub struct Gone {
    pub outcome: Outcome,
    pub around: Around,
}

impl Outcome {
    ghost use Rattle.loft_effect.specs.declared.around.Around.{Around as AroundInMemory};
    ghost use Rattle.loft_effect.specs.View.{around_of, steps_left};
    ghost use Rattle.loft_effect.specs.Outcomes.{outcome_of, outcome_with};

    /// How the run stops, with the thread put where it belongs, if it goes on later.
    pub fn put(self, thread: &mut Thread) -> Stop
        ensures { (around : AroundInMemory)
            → outcome_of result thread.new (around_of around) (steps_left around) ≡ outcome_with self around }
    {
        match self {
            Outcome::Held(gone) => {
                *thread = gone;
                Stop::Holds
            }
            Outcome::Left(gone, to) => {
                *thread = gone;
                Stop::Leaves(to)
            }
            Outcome::Ended(end) => Stop::Ends(end),
        }
    }
}

impl Gone {
    ghost use Rattle.loft_effect.specs.View.{around_of, steps_left};
    ghost use Rattle.loft_effect.specs.Outcomes.{gone_of, outcome_of};

    /// How it ends, with what it leaves put where the thread, if it goes on later, and what stands around it belong.
    pub fn put(self, thread: &mut Thread, around: &mut Around) -> Stop
        ensures outcome { outcome_of result thread.new (around_of around.new) (steps_left around.new)
            ≡ gone_of self }
        ensures around { around.new ≡ self.around }
    {
        *around = self.around;
        self.outcome.put(thread)
    }
}
