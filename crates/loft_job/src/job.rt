//! A job: a block of an unlinked thread, by its code.

ghost use Rattle.std.specs.Prelude.{◌≡◌, true, false, IfOk, OnOk, OnErr};
ghost use Rattle.loft_code.specs.Operations.{Automata};
ghost use Rattle.loft_code.specs.View.{automata_of};
ghost use Rattle.loft_sense.specs.Machine.{Code as ByCode};
ghost use Rattle.loft_sense.specs.Async.{async, GivesNext};

use loft_base::NoMemory;
use loft_block::Block;
use loft_code::Code;
use loft_orders::{Sent as SentOrder, Thread};
use loft_step::Paused;
use loft_stepper::Stepper;
use std::alloc::Global;

/// A step of a job.
#[derive(Drop)]
pub enum JobStep {
    /// It sends this order.
    Sent(SentOrder),
    /// It has sent all.
    Over,
}

/// A block of an unlinked thread, and how far it is.
#[derive(Drop)]
pub struct Job {
    block: Block<Paused>,
}

impl Job {
    ghost use Rattle.loft_job.specs.Job.{left_of_job, has_failed, order_in};

    /// A job that has sent nothing: the thread goes on from where it stood, in at most so many steps. It takes no memory.
    pub fn begin(t: Thread, block: u64) -> Job
        ensures left { (c : Automata) → left_of_job c result ≡ async (ByCode c) t block }
        ensures works { has_failed result ≡ false }
    {
        Job {
            block: Block::Begins(t, block),
        }
    }

    /// The next order, or that there is none: `Over` comes exactly where nothing is left. In between the thread stands in
    /// the midst of its run. `NoMemory` comes where an allocation fails, and at each call after that.
    pub fn next(&mut self, alloc: Global, c: &Code) -> Result<JobStep, NoMemory>
        ensures gives { IfOk result (λ step. GivesNext (order_in step)
            (left_of_job (automata_of c.now) self.old) (left_of_job (automata_of c.now) self.new)) }
        ensures works { OnOk result ((has_failed self.old ≡ false) × (has_failed self.new ≡ false)) }
        ensures no_memory { OnErr result (has_failed self.new ≡ true) }
    {
        match self.block.next(alloc, &Stepper { code: c })? {
            Some(sent) => Ok(JobStep::Sent(sent)),
            None => Ok(JobStep::Over),
        }
    }
}
