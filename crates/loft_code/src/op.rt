//! Operations.

ghost use Rattle.std.specs.Prelude.{◌≡◌};
ghost use Rattle.loft_code.specs.View.{operation_of};
ghost use Rattle.loft_code.specs.Operations.{is_test, is_end, is_turn, is_last, stop_of};

use loft_base::ModuleId;
use loft_tree::{Action, NamedExpr, Pause};

/// An operation (docs/CODE.md, "Operations"). A target is the number of an operation of the same module, from 0; a stop
/// bears its number, from 1. Both may be any number here: `validate` refuses those that are wrong. The offsets in
/// expressions and variables mean nothing.
#[derive(Drop)]
pub enum Op {
    /// A statement that is no stop, no `if` and no loop.
    Do(Action),
    /// A stop but for `run`.
    Hold {
        stop: u64,
        pause: Pause,
    },
    /// `run m(E, F);`
    Run {
        stop: u64,
        module: ModuleId,
        arguments: Vec<NamedExpr>,
    },
    /// Goes on at the next operation where the test isn't 0, else at its target.
    Branch {
        target: u64,
        test: NamedExpr,
    },
    /// Does nothing: a `while` begins.
    Enter,
    /// Pushes a count: a `repeat` begins.
    Count(NamedExpr),
    /// Lowers the last count by one where it is above 0, and goes on at the next operation; else drops it, and goes on at
    /// its target.
    Turn {
        target: u64,
    },
    /// Goes on at its target, at no cost.
    Jump {
        target: u64,
    },
    /// The module ends.
    End,
}

/// Whether it is a `branch` or a `turn`.
pub fn is_test(op: &Op) -> bool
    ensures { result ≡ is_test (operation_of op.now) }
{
    match op {
        Op::Branch { .. } | Op::Turn { .. } => true,
        Op::Do(_)
        | Op::Hold { .. }
        | Op::Run { .. }
        | Op::Enter
        | Op::Count(_)
        | Op::Jump { .. }
        | Op::End => false,
    }
}

/// Whether it is an `end`.
pub fn is_end(op: &Op) -> bool
    ensures { result ≡ is_end (operation_of op.now) }
{
    match op {
        Op::End => true,
        Op::Do(_)
        | Op::Hold { .. }
        | Op::Run { .. }
        | Op::Branch { .. }
        | Op::Enter
        | Op::Count(_)
        | Op::Turn { .. }
        | Op::Jump { .. } => false,
    }
}

/// Whether it is a `turn`.
pub fn is_turn(op: &Op) -> bool
    ensures { result ≡ is_turn (operation_of op.now) }
{
    match op {
        Op::Turn { .. } => true,
        Op::Do(_)
        | Op::Hold { .. }
        | Op::Run { .. }
        | Op::Branch { .. }
        | Op::Enter
        | Op::Count(_)
        | Op::Jump { .. }
        | Op::End => false,
    }
}

/// Whether it may be the last of a module: a `jump` or an `end`.
pub fn is_last(op: &Op) -> bool
    ensures { result ≡ is_last (operation_of op.now) }
{
    match op {
        Op::Jump { .. } | Op::End => true,
        Op::Do(_)
        | Op::Hold { .. }
        | Op::Run { .. }
        | Op::Branch { .. }
        | Op::Enter
        | Op::Count(_)
        | Op::Turn { .. } => false,
    }
}

/// The number of a stop.
pub fn stop_of(op: &Op) -> Option<u64>
    ensures { result ≡ stop_of (operation_of op.now) }
{
    match op {
        Op::Hold { stop, .. } | Op::Run { stop, .. } => Some(*stop),
        Op::Do(_)
        | Op::Branch { .. }
        | Op::Enter
        | Op::Count(_)
        | Op::Turn { .. }
        | Op::Jump { .. }
        | Op::End => None,
    }
}
