//! The orders of a block, one by one (docs/SEMANTICS.md, "Unlinked blocks").

ghost use Rattle.std.specs.Prelude.{◌≡◌, ◌++◌, [], None, true, false, IfOk, IsNone, OnOk, OnErr};
ghost use Rattle.std.specs.Option.{option_to_list};
ghost use Rattle.loft_sense.specs.Async.{GivesNext};
ghost use Rattle.loft_block.specs.Blocks.{sent_if, left_of, has_failed};

use crate::piece::{begin, go_on};
use loft_base::{NoMemory, Sequence};
use loft_orders::{Sent, Sents, Thread};
use loft_passes::Interpreter;
use std::alloc::Global;
use std::mem;

/// A block of an unlinked thread, where R is a run in its midst.
#[derive(Drop)]
pub enum Block<R> {
    /// The thread goes on from where it stood, in at most so many steps.
    Begins(Thread, u64),
    /// The orders that were made and not given so far, and the run where it goes on.
    Goes(Sents, Option<R>),
    /// There was no memory.
    Failed,
}

/// Takes the first order, if there is one.
fn take_first(orders: &mut Sents) -> Option<Sent>
    ensures first { orders.old ≡ option_to_list result ++ orders.new }
    ensures none { IsNone result → orders.old ≡ [] }
{
    if orders.is_empty() {
        return None;
    }
    Some(orders.remove(0))
}

/// The run goes on until there is an order to give, or it has stopped.
fn fill<I: Interpreter>(
    alloc: Global,
    interpreter: &I,
    orders: &mut Sents,
    mut run: Option<I::Paused>,
) -> Result<Option<I::Paused>, NoMemory>
    ensures same { IfOk result (λ rest. orders.new ++ sent_if (I.comes_to interpreter.now) rest
        ≡ orders.old ++ sent_if (I.comes_to interpreter.now) run) }
    ensures some { IfOk result (λ rest. orders.new ≡ [] → rest ≡ None) }
{
    'filling: while orders.is_empty() {
        let Some(now) = run else {
            return Ok(None);
        };
        run = go_on(alloc, interpreter, now, orders)?;
    }
    Ok(run)
}

/// The next order, none where the run stops without one, and the block after it.
fn give<I: Interpreter>(
    alloc: Global,
    interpreter: &I,
    mut orders: Sents,
    run: Option<I::Paused>,
) -> Result<(Option<Sent>, Block<I::Paused>), NoMemory>
    ensures gives { IfOk result (λ given. GivesNext given.0
        (orders ++ sent_if (I.comes_to interpreter.now) run)
        (left_of (I.program interpreter.now) (I.comes_to interpreter.now) given.1)) }
    ensures works { IfOk result (λ given. has_failed given.1 ≡ false) }
{
    let run = fill(alloc, interpreter, &mut orders, run)?;
    let sent = take_first(&mut orders);
    Ok((sent, Block::Goes(orders, run)))
}

/// The next order of a block, none where nothing is left, and the block after it.
fn advance<I: Interpreter>(
    alloc: Global,
    interpreter: &I,
    block: Block<I::Paused>,
) -> Result<(Option<Sent>, Block<I::Paused>), NoMemory>
    ensures gives { IfOk result (λ given. GivesNext given.0
        (left_of (I.program interpreter.now) (I.comes_to interpreter.now) block)
        (left_of (I.program interpreter.now) (I.comes_to interpreter.now) given.1)) }
    ensures works { IfOk result (λ given. (has_failed block ≡ false) × (has_failed given.1 ≡ false)) }
{
    match block {
        Block::Begins(thread, block) => {
            let mut orders = Sequence::new(alloc);
            let run = begin(alloc, interpreter, thread, block, &mut orders)?;
            give(alloc, interpreter, orders, run)
        }
        Block::Goes(orders, run) => give(alloc, interpreter, orders, run),
        Block::Failed => Err(NoMemory),
    }
}

impl<R: Drop> Block<R> {
    /// The next order, none where nothing is left. Once it was out of memory, it gives no further one.
    pub fn next<I: Interpreter<Paused = R>>(
        &mut self,
        alloc: Global,
        interpreter: &I,
    ) -> Result<Option<Sent>, NoMemory>
        ensures gives { IfOk result (λ sent. GivesNext sent
            (left_of (I.program interpreter.now) (I.comes_to interpreter.now) self.old)
            (left_of (I.program interpreter.now) (I.comes_to interpreter.now) self.new)) }
        ensures works { OnOk result ((has_failed self.old ≡ false) × (has_failed self.new ≡ false)) }
        ensures no_memory { OnErr result (has_failed self.new ≡ true) }
    {
        let (sent, rest) = advance(alloc, interpreter, mem::replace(self, Block::Failed))?;
        *self = rest;
        Ok(sent)
    }
}
