//! The engine that walks the statements of a program.

ghost use Rattle.std.specs.Prelude.{◌≡◌, false, IfOk};
ghost use Rattle.loft_tree.specs.ProgramView.{program_of};
ghost use Rattle.loft_tree.specs.Resolved.{resolved_of};
ghost use Rattle.loft_sense.specs.Machine.{Tree};
ghost use Rattle.loft_base.specs.Options.{IsInRange};

use crate::walker::Walker;
use loft_base::{Limits, NoMemory, SchedId};
use loft_instant::InstantEngine;
use loft_orders::{FinalState, InstantNote, Orders};
use loft_passes::WalkAll;
use loft_place::Placed;
use loft_sense::Engine;
use std::alloc::Global;

/// The engine that walks the statements of a program: an instant changes what the definitions change, and after a
/// failed allocation it makes no further one.
#[derive(Drop)]
pub struct PlainEngine<'a> {
    engine: InstantEngine<Walker<'a>, WalkAll>,
}

impl<'a> PlainEngine<'a> {
    ghost use Rattle.loft_plain.specs.PlainEngine.{tree_of, scheduler_of, limits_of, machine_of, has_failed};
    ghost use Rattle.loft_sense.specs.Machine.{empty};

    /// An engine that has made no instant, for a placed program. `NoMemory` comes where an allocation fails.
    pub fn new(
        alloc: Global,
        placed: &'a Placed,
        scheduler: SchedId,
        limits: Limits,
    ) -> Result<PlainEngine<'a>, NoMemory>
        requires range { IsInRange limits }
        ensures program { IfOk result (λ e. tree_of e ≡ Tree (resolved_of (program_of placed.now))) }
        ensures scheduler { IfOk result (λ e. scheduler_of e ≡ scheduler) }
        ensures limits { IfOk result (λ e. limits_of e ≡ limits) }
        ensures machine { IfOk result (λ e. machine_of e ≡ empty (tree_of e) scheduler) }
        ensures works { IfOk result (λ e. has_failed e ≡ false) }
    {
        let engine = InstantEngine::new(alloc, Walker { placed }, WalkAll, scheduler, limits)?;
        Ok(PlainEngine { engine })
    }
}

impl Engine for PlainEngine<'_> {
    ghost use Rattle.loft_plain.specs.PlainEngine.{tree_of, scheduler_of, limits_of, machine_of, has_failed as has_failed_of};
    ghost use Rattle.std.specs.Prelude.{refl};

    ghost program = { tree_of };

    ghost scheduler = { scheduler_of };

    ghost limits = { limits_of };

    ghost machine = { machine_of };

    ghost has_failed = { has_failed_of };

    fn take(&mut self, alloc: Global, batch: &Orders) -> Result<InstantNote, NoMemory> {
        self.engine.take(alloc, batch)
    }

    fn resting(&self) -> bool {
        self.engine.resting()
    }

    fn spent(&self) -> bool {
        self.engine.spent()
    }

    fn instant(&self) -> u64 {
        self.engine.instant()
    }

    fn last(&self, alloc: Global) -> Result<FinalState, NoMemory> {
        self.engine.last(alloc)
    }

    ghost is_of_scheduler = { λ e. refl };
}
