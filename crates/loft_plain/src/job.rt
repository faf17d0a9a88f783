//! A job: a block of an unlinked thread, by the statements of its program.

ghost use Rattle.std.specs.Prelude.{◌≡◌, true, false, IfOk, OnOk, OnErr};
ghost use Rattle.loft_tree.specs.ProgramView.{program_of};
ghost use Rattle.loft_tree.specs.Resolved.{resolved_of};
ghost use Rattle.loft_sense.specs.Machine.{Tree};
ghost use Rattle.loft_sense.specs.Async.{async, GivesNext};

use crate::walker::Walker;
use loft_base::NoMemory;
use loft_block::Block;
use loft_orders::{Sent, Thread};
use loft_place::Placed;
use loft_walk::Paused;
use std::alloc::Global;

/// A block of an unlinked thread of a placed program, and how far it is.
#[derive(Drop)]
pub struct PlainJob<'a> {
    walker: Walker<'a>,
    block: Block<Paused<'a>>,
}

impl<'a> PlainJob<'a> {
    ghost use Rattle.loft_plain.specs.PlainJob.{left_of_job, has_failed_job};

    /// A job that has sent nothing: the thread goes on from where it stood, in at most so many steps. It takes no memory.
    pub fn begin(p: &'a Placed, t: Thread, block: u64) -> PlainJob<'a>
        ensures left { left_of_job result ≡ async (Tree (resolved_of (program_of p.now))) t block }
        ensures works { has_failed_job result ≡ false }
    {
        PlainJob {
            walker: Walker { placed: p },
            block: Block::Begins(t, block),
        }
    }

    /// The next order; none comes exactly where nothing is left. In between the thread stands in the midst of its run.
    /// `NoMemory` comes where an allocation fails, and at each call after that.
    pub fn next(&mut self, alloc: Global) -> Result<Option<Sent>, NoMemory>
        ensures gives { IfOk result (λ sent. GivesNext sent (left_of_job self.old) (left_of_job self.new)) }
        ensures works { OnOk result ((has_failed_job self.old ≡ false) × (has_failed_job self.new ≡ false)) }
        ensures no_memory { OnErr result (has_failed_job self.new ≡ true) }
    {
        self.block.next(alloc, &self.walker)
    }
}
