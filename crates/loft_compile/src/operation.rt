//! The operations with which statements begin.

ghost use Rattle.std.specs.Prelude.{◌≡◌, true, IfOk};
ghost use Rattle.loft_tree.specs.NamedView.{statement_of};
ghost use Rattle.loft_tree.specs.Resolved.{step_of};
ghost use Rattle.loft_code.specs.View.{operation_of};
ghost use Rattle.loft_compile.specs.Targets.{first_operation, with_target};

use crate::copy;
use loft_base::{NoMemory, Room};
use loft_code::Op;
use loft_tree::NamedStmt;
use std::alloc::Global;

/// The operation with which a statement begins. The target of a `branch` is 0 so far.
#[tactic(auto, using(loft_tree::proofs::NamedTrees::named_statements))]
fn operation(room: &mut Room, s: &NamedStmt) -> Op
    ensures before { room.new.is_whole ≡ true → room.old.is_whole ≡ true }
    ensures value { room.new.is_whole ≡ true → operation_of result ≡ first_operation (step_of (statement_of s.now)) }
{
    match s {
        NamedStmt::Do { action, .. } => Op::Do(copy::action(room, action)),
        NamedStmt::Hold { stop, pause, .. } => Op::Hold {
            stop: u64::from(*stop),
            pause: copy::pause(room, pause),
        },
        NamedStmt::Run {
            stop,
            module,
            arguments,
            ..
        } => Op::Run {
            stop: u64::from(*stop),
            module: *module,
            arguments: copy::expressions(room, arguments.as_slice()),
        },
        NamedStmt::If { test, .. } => Op::Branch {
            target: 0,
            test: copy::expression(room, test),
        },
        NamedStmt::While { .. } => Op::Enter,
        NamedStmt::Repeat { count, .. } => Op::Count(copy::expression(room, count)),
    }
}

/// The operation with which a statement begins. The target of a `branch` is 0 so far.
pub fn first_operation(alloc: Global, s: &NamedStmt) -> Result<Op, NoMemory>
    ensures { IfOk result (λ op. operation_of op ≡ first_operation (step_of (statement_of s.now))) }
{
    let mut room = Room::new(alloc);
    let op = operation(&mut room, s);
    room.done(op)
}

/// Sets the target of a `branch`, a `turn` or a `jump`.
pub fn set_target(op: &mut Op, next: u64)
    ensures { operation_of op.new ≡ with_target next (operation_of op.old) }
{
    match op {
        Op::Branch { target, .. } => *target = next,
        Op::Turn { target } => *target = next,
        Op::Jump { target } => *target = next,
        Op::Do(_) | Op::Hold { .. } | Op::Run { .. } | Op::Enter | Op::Count(_) | Op::End => {}
    }
}
