//! The pieces of a run of an unlinked thread, and what they send (docs/SEMANTICS.md, "Unlinked blocks").

ghost use Rattle.std.specs.Prelude.{◌≡◌, ◌<◌, ◌++◌, suc, IfOk, IfSome};
ghost use Rattle.loft_sense.specs.Async.{async, block_sent};
ghost use Rattle.loft_effect.specs.Progress.{progress_outcome, progress_left};
ghost use Rattle.loft_block.specs.Blocks.{sent_if};

use crate::told::{alone, tell_gone};
use loft_base::NoMemory;
use loft_effect::{Progress, tell_all};
use loft_orders::{Sents, Thread};
use loft_passes::Interpreter;
use loft_tree::Place;
use std::alloc::Global;

/// Adds what a run has sent by now, and answers the run where it goes on.
fn gather<I: Interpreter>(
    alloc: Global,
    interpreter: &I,
    progress: Progress<I::Paused>,
    orders: &mut Sents,
) -> Result<Option<I::Paused>, NoMemory>
    ensures sent { IfOk result (λ rest. orders.new ++ sent_if (I.comes_to interpreter.now) rest
        ≡ orders.old ++ block_sent (progress_outcome (I.comes_to interpreter.now) progress)) }
    ensures left { IfOk result (λ rest. IfSome rest (λ r. suc (I.left interpreter.now r)
        ≡ progress_left (I.left interpreter.now) progress)) }
{
    match progress {
        Progress::Goes(mut run) => {
            let acts = interpreter.take_acts(alloc, &mut run);
            tell_all(alloc, Place::Unlinked, orders, acts.as_slice())?;
            Ok(Some(run))
        }
        Progress::Stops(gone) => {
            tell_gone(alloc, orders, gone)?;
            Ok(None)
        }
    }
}

/// A thread begins to go on, in at most so many steps. Adds what it has sent by then, and answers the run where it goes on.
pub fn begin<I: Interpreter>(
    alloc: Global,
    interpreter: &I,
    thread: Thread,
    block: u64,
    orders: &mut Sents,
) -> Result<Option<I::Paused>, NoMemory>
    ensures sent { IfOk result (λ rest. orders.new ++ sent_if (I.comes_to interpreter.now) rest
        ≡ orders.old ++ async (I.program interpreter.now) thread block) }
{
    let around = alone(alloc, interpreter.heads(), block)?;
    let progress = interpreter.begin(alloc, thread, around)?;
    gather(alloc, interpreter, progress, orders)
}

/// A run goes on. Adds what it has sent by then, and answers the run where it goes on further.
pub fn go_on<I: Interpreter>(
    alloc: Global,
    interpreter: &I,
    run: I::Paused,
    orders: &mut Sents,
) -> Result<Option<I::Paused>, NoMemory>
    ensures sent { IfOk result (λ rest. orders.new ++ sent_if (I.comes_to interpreter.now) rest
        ≡ orders.old ++ block_sent (I.comes_to interpreter.now run)) }
    ensures fewer { IfOk result (λ rest. IfSome rest (λ r. I.left interpreter.now r
        < I.left interpreter.now run)) }
{
    let progress = interpreter.go_on(alloc, run)?;
    gather(alloc, interpreter, progress, orders)
}
