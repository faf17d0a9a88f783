//! Runs in their midst.

ghost use Rattle.loft_step.specs.Kept.{AreKept};

use crate::running::Running;
use loft_base::Sequence;
use loft_effect::{Beside, Outcome};
use loft_orders::{Acts, Frames};
use std::alloc::Global;
use std::mem;

/// The frames of a thread in the midst of its run: the innermost, and those around it as they are kept.
#[derive(Drop)]
pub struct Stack {
    pub top: Running,
    pub outer: Frames,
    ghost kept: { AreKept outer },
}

/// Whether the frames of a run go on, or how it has stopped.
#[derive(Drop)]
pub enum Turn {
    Goes(Stack),
    Stops(Outcome),
}

/// A run in its midst.
#[derive(Drop)]
pub struct Paused {
    pub(crate) stack: Stack,
    pub(crate) beside: Beside,
}

impl Paused {
    ghost use Rattle.std.specs.Prelude.{◌≡◌};
    ghost use Rattle.loft_code.specs.Operations.{Automata};
    ghost use Rattle.loft_step.specs.Midst.{acts_of, paused_left, paused_outcome, outcome_without_acts};

    /// Takes out what was done so far.
    pub fn take_acts(&mut self, alloc: Global) -> Acts
        ensures acts { result ≡ acts_of self.old }
        ensures outcome { (c : Automata) → paused_outcome c self.new ≡ outcome_without_acts c self.old }
        ensures left { paused_left self.new ≡ paused_left self.old }
    {
        mem::replace(&mut self.beside.around.acts, Sequence::new(alloc))
    }
}
