//! How the linked threads stand between two instants.

ghost use Rattle.std.specs.Prelude.{◌≡◌, ◌<◌, ◌++◌, Some, length, slice_get, IfOk, OnOk};
ghost use Rattle.loft_passes.specs.declared.runner.Runner.{Runner as ARunner};
ghost use Rattle.loft_line.specs.Line.{standing_if};

use crate::line::Line;
use loft_base::{NoMemory, Sequence};
use loft_orders::{Standing, Standings};
use std::alloc::Global;

impl Line {
    ghost use Rattle.loft_line.specs.Line.{runners_in, standings_in, IsLine};

    /// How the thread at a position stands, where it is held.
    fn push_standing(
        &self,
        alloc: Global,
        pos: usize,
        standings: &mut Standings,
    ) -> Result<(), NoMemory>
        requires within { pos < length self.now.slots.items }
        requires waits { pos < length self.now.waits.waits }
        ensures { OnOk result ((r : ARunner) → slice_get (runners_in self.now) pos ≡ Some r
            → standings.new ≡ standings.old ++ standing_if r) }
    {
        let runner = &self.slots[pos];
        if runner.is_held() {
            let suspended = runner.suspended;
            let thread = self.thread_at(alloc, pos)?;
            standings.push(Standing { thread, suspended })?;
            return Ok(());
        }
        Ok(())
    }

    /// The linked threads, as others see them.
    pub fn standings(&self, alloc: Global) -> Result<Standings, NoMemory>
        requires line { IsLine self.now }
        ensures { IfOk result (λ standings. standings ≡ standings_in (runners_in self.now)) }
    {
        let mut standings = Sequence::new(alloc);
        standings.reserve(self.held)?;
        for pos in 0..self.slots.len() {
            self.push_standing(alloc, pos, &mut standings)?;
        }
        Ok(standings)
    }
}
