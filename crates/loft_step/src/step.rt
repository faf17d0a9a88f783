//! One step of a thread (docs/SEMANTICS.md, "Run").

ghost use Rattle.std.specs.Prelude.{◌≡◌, ◌+◌, ◌^◌, ◌<◌, ℕ, IfOk, map, reverse, Some};
ghost use Rattle.loft_tree.specs.NamedView.{term_of};
ghost use Rattle.loft_tree.specs.Resolved.{exp_of, exps_of};
ghost use Rattle.loft_code.specs.Operations.{Do, Hold, Call, Branch, Count, stop_of};
ghost use Rattle.loft_code.specs.View.{action_of, pause_of, operation_of};
ghost use Rattle.loft_sense.specs.Code.{point, turned};

use crate::running::Running;
use loft_base::{ModuleId, NoMemory, Values};
use loft_code::Op;
use loft_effect::{Beside, Effect, is_true, number_of};
use loft_orders::{Counts, End, To, Wait};
use loft_tree::{Action, Heads, NamedExpr, Pause};
use std::alloc::Global;

/// What becomes of a thread where its innermost frame doesn't just go on.
#[derive(Drop)]
pub enum Move {
    /// The frame goes on as the run is taken up again.
    Pause,
    /// The frame is dropped.
    Return,
    /// A module runs in a further frame, with these arguments.
    Enter(ModuleId, Values),
    /// The thread waits.
    Hold(Wait),
    /// The thread leaves.
    Leave(To),
    /// The thread ends.
    End(End),
}

/// A `turn`: the last count is lowered where it is above 0, else dropped. The operation at which it goes on.
fn turn(counts: &mut Counts, inside: usize, outside: usize) -> Result<usize, NoMemory>
    ensures { IfOk result (λ op. point op (reverse counts.new) ≡ turned inside outside (reverse counts.old)) }
{
    let Some(count) = counts.pop() else {
        return Ok(outside);
    };
    if count > 0 {
        counts.push(count - 1)?;
        Ok(inside)
    } else {
        Ok(outside)
    }
}

impl Running {
    ghost use Rattle.loft_step.specs.Frames.{Makes, move_unless, moved_by};

    /// What an effect makes of its thread. Answers whether the frame just goes on, and leaves the other move where it doesn't.
    fn goes_on(effect: Effect, other: &mut Move) -> bool
        ensures { move_unless result other.new ≡ moved_by effect }
    {
        match effect {
            Effect::GoesOn => true,
            Effect::Waits(wait) => {
                *other = Move::Hold(wait);
                false
            }
            Effect::Leaves(to) => {
                *other = Move::Leave(to);
                false
            }
            Effect::Dies(end) => {
                *other = Move::End(end);
                false
            }
        }
    }

    /// An action.
    fn act(
        &mut self,
        alloc: Global,
        heads: &Heads,
        beside: &mut Beside,
        number: usize,
        action: &Action,
        other: &mut Move,
    ) -> Result<bool, NoMemory>
        requires { number + 1 < 2 ^ 64 }
        ensures { IfOk result (λ goes. Makes heads.now (Do (action_of action.now)) number
            self.old beside.old (move_unless goes other.new) self.new beside.new) }
    {
        self.op = number + 1;
        match self.scope.act(alloc, heads, beside, action)? {
            Effect::GoesOn => Ok(true),
            effect => Ok(Self::goes_on(effect, other)),
        }
    }

    /// A stop but for `run`.
    fn hold(
        &mut self,
        alloc: Global,
        heads: &Heads,
        beside: &mut Beside,
        number: usize,
        stop: u64,
        pause: &Pause,
        other: &mut Move,
    ) -> Result<bool, NoMemory>
        requires number { number + 1 < 2 ^ 64 }
        requires stop { stop < 2 ^ 32 }
        ensures { IfOk result (λ goes. Makes heads.now (Hold stop (pause_of pause.now)) number
            self.old beside.old (move_unless goes other.new) self.new beside.new) }
    {
        self.op = number + 1;
        self.scope.at.stop = stop as u32;
        let effect = self.scope.hold(alloc, heads, beside, pause)?;
        Ok(Self::goes_on(effect, other))
    }

    /// A `run`.
    fn call(
        &mut self,
        alloc: Global,
        heads: &Heads,
        beside: &mut Beside,
        number: usize,
        stop: u64,
        module: ModuleId,
        arguments: &[NamedExpr],
        other: &mut Move,
    ) -> Result<bool, NoMemory>
        requires number { number + 1 < 2 ^ 64 }
        requires stop { stop < 2 ^ 32 }
        ensures { IfOk result (λ goes. Makes heads.now (Call stop «module» (exps_of (map term_of arguments.now))) number
            self.old beside.old (move_unless goes other.new) self.new beside.new) }
    {
        self.op = number + 1;
        self.scope.at.stop = stop as u32;
        match self.scope.values(alloc, heads, beside, arguments)? {
            Ok(values) => *other = Move::Enter(module, values),
            Err(_) => *other = Move::End(End::Div(self.scope.at)),
        }
        Ok(false)
    }

    /// A `branch`.
    fn branch(
        &mut self,
        heads: &Heads,
        beside: &mut Beside,
        number: usize,
        target: u64,
        test: &NamedExpr,
        other: &mut Move,
    ) -> bool
        requires { number + 1 < 2 ^ 64 }
        ensures { Makes heads.now (Branch target (exp_of (term_of test.now))) number
            self.old beside.old (move_unless result other.new) self.new beside.new }
    {
        let Ok(value) = self.scope.value(heads, beside, test) else {
            *other = Move::End(End::Div(self.scope.at));
            return false;
        };
        self.op = if is_true(number_of(value)) {
            number + 1
        } else {
            target as usize
        };
        true
    }

    /// A `count`.
    fn count(
        &mut self,
        heads: &Heads,
        beside: &mut Beside,
        number: usize,
        count: &NamedExpr,
        other: &mut Move,
    ) -> Result<bool, NoMemory>
        requires { number + 1 < 2 ^ 64 }
        ensures { IfOk result (λ goes. Makes heads.now (Count (exp_of (term_of count.now))) number
            self.old beside.old (move_unless goes other.new) self.new beside.new) }
    {
        let Ok(value) = self.scope.value(heads, beside, count) else {
            *other = Move::End(End::Div(self.scope.at));
            return Ok(false);
        };
        self.counts.push(number_of(value))?;
        self.op = number + 1;
        Ok(true)
    }

    /// The operation with this number. One that leads nowhere drops the frame. Answers whether the frame just goes on, and leaves
    /// the other move where it doesn't.
    pub fn step(
        &mut self,
        alloc: Global,
        heads: &Heads,
        beside: &mut Beside,
        number: usize,
        op: &Op,
        other: &mut Move,
    ) -> Result<bool, NoMemory>
        requires number { number + 1 < 2 ^ 64 }
        requires stop { (k : ℕ) → stop_of (operation_of op.now) ≡ Some k → k < 2 ^ 32 }
        ensures { IfOk result (λ goes. Makes heads.now (operation_of op.now) number
            self.old beside.old (move_unless goes other.new) self.new beside.new) }
    {
        match op {
            Op::Do(action) => self.act(alloc, heads, beside, number, action, other),
            Op::Hold { stop, pause } => {
                self.hold(alloc, heads, beside, number, *stop, pause, other)
            }
            Op::Run {
                stop,
                module,
                arguments,
            } => self.call(
                alloc,
                heads,
                beside,
                number,
                *stop,
                *module,
                arguments.as_slice(),
                other,
            ),
            Op::Branch { target, test } => {
                Ok(self.branch(heads, beside, number, *target, test, other))
            }
            Op::Enter => {
                self.op = number + 1;
                Ok(true)
            }
            Op::Count(count) => self.count(heads, beside, number, count, other),
            Op::Turn { target } => {
                self.op = turn(&mut self.counts, number + 1, *target as usize)?;
                Ok(true)
            }
            Op::Jump { .. } | Op::End => {
                *other = Move::Return;
                Ok(false)
            }
        }
    }
}
