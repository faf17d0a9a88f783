//! One step of a thread (docs/SEMANTICS.md, "Run").

ghost use Rattle.std.specs.Prelude.{◌≡◌, ◌∷◌, IfOk};
ghost use Rattle.std.specs.Prelude.{map};
ghost use Rattle.loft_tree.specs.NamedView.{term_of};
ghost use Rattle.loft_tree.specs.Resolved.{exp_of, exps_of, Call, Choose, Times};
ghost use Rattle.loft_sense.specs.Tree.{Again, Turns, next_begin, next_work, next_turn};
ghost use Rattle.loft_walk.specs.Pieces.{body_from, step_from, work_of, work_of_task};

use crate::running::Running;
use crate::work::{Piece, Task};
use loft_base::{ModuleId, NoMemory, Values};
use loft_effect::{Beside, Effect, is_true, number_of};
use loft_orders::{End, To, Wait};
use loft_tree::{Heads, NamedExpr, NamedStmt};
use std::alloc::Global;

/// What a step makes of its thread.
#[derive(Drop)]
pub enum Move {
    /// The frame goes on.
    GoOn,
    /// A module runs in a further frame, with these arguments.
    Enter(ModuleId, Values),
    /// The thread waits.
    Hold(Wait),
    /// The thread leaves.
    Leave(To),
    /// The thread ends.
    End(End),
}

impl<'a> Running<'a> {
    ghost use Rattle.loft_walk.specs.Frames.{Steps, moved_by};

    /// What a statement makes of its thread.
    fn move_of(effect: Effect) -> Move
        ensures { result ≡ moved_by effect }
    {
        match effect {
            Effect::GoesOn => Move::GoOn,
            Effect::Waits(wait) => Move::Hold(wait),
            Effect::Leaves(to) => Move::Leave(to),
            Effect::Dies(end) => Move::End(end),
        }
    }

    /// A module is run in a further frame.
    #[tactic(auto, using(crate::proofs::Onto::onto))]
    fn begin_run(
        &mut self,
        alloc: Global,
        heads: &Heads,
        beside: &mut Beside,
        stop: u32,
        module: ModuleId,
        arguments: &[NamedExpr],
    ) -> Result<Move, NoMemory>
        ensures steps { IfOk result (λ move. Steps heads.now (next_begin (Call stop «module» (exps_of (map term_of arguments.now))) (work_of self.old.work.items))
            self.old beside.old move self.new beside.new) }
        ensures bound { IfOk result (λ move. beside.new.around.bound ≡ beside.old.around.bound) }
    {
        self.scope.at.stop = stop;
        match self.scope.values(alloc, heads, beside, arguments)? {
            Ok(values) => Ok(Move::Enter(module, values)),
            Err(_) => Ok(Move::End(End::Div(self.scope.at))),
        }
    }

    /// One of two bodies begins.
    #[tactic(auto, using(crate::proofs::Onto::onto))]
    fn begin_if(
        &mut self,
        heads: &Heads,
        beside: &mut Beside,
        test: &NamedExpr,
        first: &'a [NamedStmt],
        second: &'a [NamedStmt],
    ) -> Result<Move, NoMemory>
        ensures steps { IfOk result (λ move. Steps heads.now (next_begin (Choose (exp_of (term_of test.now)) (body_from first.now) (body_from second.now)) (work_of self.old.work.items))
            self.old beside.old move self.new beside.new) }
        ensures bound { IfOk result (λ move. beside.new.around.bound ≡ beside.old.around.bound) }
    {
        let Ok(value) = self.scope.value(heads, beside, test) else {
            return Ok(Move::End(End::Div(self.scope.at)));
        };
        if is_true(number_of(value)) {
            self.work.push(Piece::Rest(first))?;
        } else {
            self.work.push(Piece::Rest(second))?;
        }
        Ok(Move::GoOn)
    }

    /// Turns of a body are counted.
    #[tactic(auto, using(crate::proofs::Onto::onto))]
    fn begin_repeat(
        &mut self,
        heads: &Heads,
        beside: &mut Beside,
        count: &NamedExpr,
        body: &'a [NamedStmt],
    ) -> Result<Move, NoMemory>
        ensures steps { IfOk result (λ move. Steps heads.now (next_begin (Times (exp_of (term_of count.now)) (body_from body.now)) (work_of self.old.work.items))
            self.old beside.old move self.new beside.new) }
        ensures bound { IfOk result (λ move. beside.new.around.bound ≡ beside.old.around.bound) }
    {
        let Ok(value) = self.scope.value(heads, beside, count) else {
            return Ok(Move::End(End::Div(self.scope.at)));
        };
        self.work.push(Piece::Turns(number_of(value), body))?;
        Ok(Move::GoOn)
    }

    /// A statement begins.
    #[tactic(auto, using(crate::proofs::Onto::onto, loft_tree::proofs::NamedTrees::named_statements))]
    fn begin_statement(
        &mut self,
        alloc: Global,
        heads: &Heads,
        beside: &mut Beside,
        statement: &'a NamedStmt,
    ) -> Result<Move, NoMemory>
        ensures steps { IfOk result (λ move. Steps heads.now (next_begin (step_from statement.now) (work_of self.old.work.items))
            self.old beside.old move self.new beside.new) }
        ensures bound { IfOk result (λ move. beside.new.around.bound ≡ beside.old.around.bound) }
    {
        match statement {
            NamedStmt::Do { at: _, action } => {
                Ok(Self::move_of(self.scope.act(alloc, heads, beside, action)?))
            }
            NamedStmt::Hold { at: _, stop, pause } => {
                self.scope.at.stop = *stop;
                Ok(Self::move_of(self.scope.hold(alloc, heads, beside, pause)?))
            }
            NamedStmt::Run {
                at: _,
                stop,
                called: _,
                module,
                arguments,
            } => { self.begin_run(alloc, heads, beside, *stop, *module, arguments.as_slice()) }
            NamedStmt::If {
                at: _,
                test,
                first,
                second,
            } => { self.begin_if(heads, beside, test, first.as_slice(), second.as_slice()) }
            NamedStmt::While { at: _, test, body } => {
                self.work.push(Piece::Again(test, body.as_slice()))?;
                Ok(Move::GoOn)
            }
            NamedStmt::Repeat { at: _, count, body } => {
                self.begin_repeat(heads, beside, count, body.as_slice())
            }
        }
    }

    /// The next test of a `while`.
    #[tactic(auto, using(crate::proofs::Onto::onto))]
    fn test_again(
        &mut self,
        heads: &Heads,
        beside: &mut Beside,
        test: &'a NamedExpr,
        body: &'a [NamedStmt],
    ) -> Result<Move, NoMemory>
        ensures steps { IfOk result (λ move. Steps heads.now (next_work (Again (exp_of (term_of test.now)) (body_from body.now) ∷ work_of self.old.work.items))
            self.old beside.old move self.new beside.new) }
        ensures bound { IfOk result (λ move. beside.new.around.bound ≡ beside.old.around.bound) }
    {
        let Ok(value) = self.scope.value(heads, beside, test) else {
            return Ok(Move::End(End::Div(self.scope.at)));
        };
        if is_true(number_of(value)) {
            self.work.push(Piece::Again(test, body))?;
            self.work.push(Piece::Rest(body))?;
        }
        Ok(Move::GoOn)
    }

    /// The next turn of a `repeat`, while turns are to come.
    #[tactic(auto, using(crate::proofs::Onto::onto))]
    fn turn(
        &mut self,
        heads: &Heads,
        beside: &mut Beside,
        count: i64,
        body: &'a [NamedStmt],
    ) -> Result<Move, NoMemory>
        ensures steps { IfOk result (λ move. Steps heads.now (next_turn count (body_from body.now) (work_of self.old.work.items))
            self.old beside.old move self.new beside.new) }
        ensures bound { IfOk result (λ move. beside.new.around.bound ≡ beside.old.around.bound) }
    {
        if count > 0 {
            self.work.push(Piece::Turns(count - 1, body))?;
            self.work.push(Piece::Rest(body))?;
        }
        Ok(Move::GoOn)
    }

    /// One step.
    pub fn step(
        &mut self,
        alloc: Global,
        heads: &Heads,
        beside: &mut Beside,
        task: Task<'a>,
    ) -> Result<Move, NoMemory>
        ensures steps { IfOk result (λ move. Steps heads.now (next_work (work_of_task task.entry ∷ work_of self.old.work.items))
            self.old beside.old move self.new beside.new) }
        ensures bound { IfOk result (λ move. beside.new.around.bound ≡ beside.old.around.bound) }
    {
        match task {
            Task::Begin(statement) => self.begin_statement(alloc, heads, beside, statement),
            Task::Again(test, body) => self.test_again(heads, beside, test, body),
            Task::Turns(count, body) => self.turn(heads, beside, count, body),
        }
    }
}
