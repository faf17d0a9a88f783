//! The blocks of one worker, by the statements of a program.

ghost use Rattle.std.specs.Prelude.{◌≡◌, []};
ghost use Rattle.loft_tree.specs.ProgramView.{program_of};
ghost use Rattle.loft_tree.specs.Resolved.{resolved_of};
ghost use Rattle.loft_sense.specs.Machine.{Tree};

use loft_base::NoMemory;
use loft_course::BlockEngine;
use loft_orders::{Sent, Thread};
use loft_place::Placed;
use loft_plain::PlainJob;
use std::alloc::Global;

/// Runs the blocks of unlinked threads of a placed program by walking its statements, one after
/// another.
#[derive(Drop)]
pub(crate) struct PlainBlocks<'a> {
    placed: &'a Placed,
    bound: u64,
    job: Option<PlainJob<'a>>,
}

impl<'a> PlainBlocks<'a> {
    ghost use Rattle.loft_replay.specs.PlainBlocks.{tree_of, bound_of, left_of};

    /// Blocks of at most so many steps, of which none has begun.
    pub fn new(placed: &'a Placed, bound: u64) -> PlainBlocks<'a>
        ensures program { tree_of result ≡ Tree (resolved_of (program_of placed.now)) }
        ensures bound { bound_of result ≡ bound }
        ensures fresh { left_of result ≡ [] }
    {
        PlainBlocks {
            placed,
            bound,
            job: None,
        }
    }
}

impl BlockEngine for PlainBlocks<'_> {
    ghost use Rattle.loft_replay.specs.PlainBlocks.{tree_of, bound_of, left_of};

    ghost program = { tree_of };

    ghost bound = { bound_of };

    ghost left = { left_of };

    fn begin(&mut self, thread: Thread) {
        self.job = Some(PlainJob::begin(self.placed, thread, self.bound));
    }

    fn next(&mut self, alloc: Global) -> Result<Option<Sent>, NoMemory> {
        match &mut self.job {
            Some(job) => job.next(alloc),
            None => Ok(None),
        }
    }
}
