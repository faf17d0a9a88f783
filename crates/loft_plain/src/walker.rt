//! What walks the statements of a program.

ghost use Rattle.loft_tree.specs.ProgramView.{program_of};
ghost use Rattle.loft_tree.specs.Resolved.{resolved_of};
ghost use Rattle.loft_sense.specs.Machine.{Tree};
ghost use Rattle.loft_walk.specs.Midst.{paused_outcome, paused_left};

use loft_base::NoMemory;
use loft_effect::{Around, Progress, take_around, take_thread};
use loft_orders::{Acts, Stop, Thread};
use loft_passes::Interpreter;
use loft_place::Placed;
use loft_tree::Heads;
use loft_walk::{Paused, begin, go, go_on};
use std::alloc::Global;

/// Runs threads by walking the statements of a placed program.
#[derive(Clone, Copy)]
pub struct Walker<'a> {
    pub placed: &'a Placed,
}

impl<'a> Interpreter for Walker<'a> {
    type Paused = Paused<'a>;

    ghost program = { λ w. Tree (resolved_of (program_of w.placed.now)) };

    ghost comes_to = { λ w run. paused_outcome (resolved_of (program_of w.placed.now)) run };

    ghost left = { λ w run. paused_left run };

    fn heads(&self) -> &Heads {
        &self.placed.program().heads
    }

    fn run(
        &self,
        alloc: Global,
        thread: &mut Thread,
        around: &mut Around,
    ) -> Result<Stop, NoMemory> {
        let taken = take_thread(alloc, thread);
        let there = take_around(alloc, around)?;
        let gone = go(alloc, self.placed.program(), taken, there)?;
        Ok(gone.put(thread, around))
    }

    fn begin(
        &self,
        alloc: Global,
        thread: Thread,
        around: Around,
    ) -> Result<Progress<Paused<'a>>, NoMemory> {
        begin(alloc, self.placed.program(), thread, around)
    }

    fn go_on(&self, alloc: Global, run: Paused<'a>) -> Result<Progress<Paused<'a>>, NoMemory> {
        go_on(alloc, self.placed.program(), run)
    }

    fn take_acts(&self, alloc: Global, run: &mut Paused<'a>) -> Acts {
        run.take_acts(alloc)
    }
}
