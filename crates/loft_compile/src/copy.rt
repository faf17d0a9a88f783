//! Copies of what holds memory. Where there is none for a copy, the room says so.

ghost use Rattle.std.specs.Prelude.{◌≡◌, map, true, IfOk};
ghost use Rattle.loft_tree.specs.NamedTree.{Unary, Binary, PrintText};
ghost use Rattle.loft_tree.specs.NamedView.{term_of, value_of, creation_of, action_of, pause_of};

use loft_base::{NoMemory, Room};
use loft_tree::{
    Action, BinaryOperator, NamedCreation, NamedExpr, Pause, SharedText, UnaryOperator,
};
use std::alloc::Global;

/// An operator before its operand.
fn unary(room: &mut Room, operator: UnaryOperator, operand: NamedExpr) -> NamedExpr
    ensures before { room.new.is_whole ≡ true → room.old.is_whole ≡ true }
    ensures value { room.new.is_whole ≡ true → term_of result ≡ Unary operator (term_of operand) }
{
    match Box::new(room.alloc, operand) {
        Ok(operand) => NamedExpr::Unary { operator, operand },
        Err(_) => {
            room.is_whole = false;
            NamedExpr::Number(0)
        }
    }
}

/// An operator between its operands.
fn binary(room: &mut Room, operator: BinaryOperator, left: NamedExpr, right: NamedExpr) -> NamedExpr
    ensures before { room.new.is_whole ≡ true → room.old.is_whole ≡ true }
    ensures value { room.new.is_whole ≡ true → term_of result ≡ Binary operator (term_of left) (term_of right) }
{
    match Box::new(room.alloc, left) {
        Ok(left) => match Box::new(room.alloc, right) {
            Ok(right) => NamedExpr::Binary {
                operator,
                left,
                right,
            },
            Err(_) => {
                room.is_whole = false;
                NamedExpr::Number(0)
            }
        },
        Err(_) => {
            room.is_whole = false;
            NamedExpr::Number(0)
        }
    }
}

/// A copy of an expression.
pub fn expression(room: &mut Room, e: &NamedExpr) -> NamedExpr
    ensures before { room.new.is_whole ≡ true → room.old.is_whole ≡ true }
    ensures value { room.new.is_whole ≡ true → term_of result ≡ term_of e.now }
{
    match e {
        NamedExpr::Number(value) => NamedExpr::Number(*value),
        NamedExpr::Slot(slot) => NamedExpr::Slot(*slot),
        NamedExpr::Shared { at, shared } => NamedExpr::Shared {
            at: *at,
            shared: *shared,
        },
        NamedExpr::Builtin(builtin) => NamedExpr::Builtin(*builtin),
        NamedExpr::Unary { operator, operand } => {
            let operand = expression(room, operand);
            unary(room, *operator, operand)
        }
        NamedExpr::Binary {
            operator,
            left,
            right,
        } => {
            let left = expression(room, left);
            let right = expression(room, right);
            binary(room, *operator, left, right)
        }
    }
}

/// The same, where one is asked for alone.
pub fn whole_expression(alloc: Global, e: &NamedExpr) -> Result<NamedExpr, NoMemory>
    ensures { IfOk result (λ copy. term_of copy ≡ term_of e.now) }
{
    let mut room = Room::new(alloc);
    let copy = expression(&mut room, e);
    room.done(copy)
}

/// A copy of an expression, where there is one.
fn expression_if(room: &mut Room, e: &Option<NamedExpr>) -> Option<NamedExpr>
    ensures before { room.new.is_whole ≡ true → room.old.is_whole ≡ true }
    ensures value { room.new.is_whole ≡ true → value_of result ≡ value_of e.now }
{
    match e {
        Some(e) => Some(expression(room, e)),
        None => None,
    }
}

/// Copies of expressions.
pub fn expressions(room: &mut Room, es: &[NamedExpr]) -> Vec<NamedExpr>
    ensures before { room.new.is_whole ≡ true → room.old.is_whole ≡ true }
    ensures value { room.new.is_whole ≡ true → map term_of result.items ≡ map term_of es.now }
{
    let mut copy = Vec::new(room.alloc);
    for e in es {
        let one = expression(room, e);
        room.push_to(&mut copy, one);
    }
    copy
}

/// A copy of a thread to be made.
fn creation(room: &mut Room, c: &NamedCreation) -> NamedCreation
    ensures before { room.new.is_whole ≡ true → room.old.is_whole ≡ true }
    ensures value { room.new.is_whole ≡ true → creation_of result ≡ creation_of c.now }
{
    NamedCreation {
        at: c.at,
        scheduler: c.scheduler,
        module: c.module,
        arguments: expressions(room, c.arguments.as_slice()),
    }
}

/// The printing of a text, which is shared.
fn print_text(room: &mut Room, text: &SharedText, value: &Option<NamedExpr>) -> Action
    ensures before { room.new.is_whole ≡ true → room.old.is_whole ≡ true }
    ensures value { room.new.is_whole ≡ true → action_of result ≡ PrintText text.now (value_of value.now) }
{
    match text.share() {
        Ok(text) => Action::PrintText {
            text,
            value: expression_if(room, value),
        },
        Err(_) => {
            room.is_whole = false;
            Action::PrintValue(NamedExpr::Number(0))
        }
    }
}

/// A copy of an action, which shares its text.
pub fn action(room: &mut Room, a: &Action) -> Action
    ensures before { room.new.is_whole ≡ true → room.old.is_whole ≡ true }
    ensures value { room.new.is_whole ≡ true → action_of result ≡ action_of a.now }
{
    match a {
        Action::Assign { target, value } => Action::Assign {
            target: *target,
            value: expression(room, value),
        },
        Action::Make {
            target,
            creation: c,
        } => Action::Make {
            target: *target,
            creation: creation(room, c),
        },
        Action::PrintText { text, value } => print_text(room, text, value),
        Action::PrintValue(value) => Action::PrintValue(expression(room, value)),
        Action::Generate { event, value } => Action::Generate {
            event: *event,
            value: expression_if(room, value),
        },
        Action::Control {
            control,
            thread,
            scheduler,
        } => Action::Control {
            control: *control,
            thread: expression(room, thread),
            scheduler: *scheduler,
        },
        Action::Broadcast { event, value } => Action::Broadcast {
            event: *event,
            value: expression_if(room, value),
        },
    }
}

/// A copy of a pause.
pub fn pause(room: &mut Room, p: &Pause) -> Pause
    ensures before { room.new.is_whole ≡ true → room.old.is_whole ≡ true }
    ensures value { room.new.is_whole ≡ true → pause_of result ≡ pause_of p.now }
{
    match p {
        Pause::Cooperate { instants } => Pause::Cooperate {
            instants: expression_if(room, instants),
        },
        Pause::Await { events, limit } => Pause::Await {
            events: room.slice(events.as_slice()).into_vec(),
            limit: expression_if(room, limit),
        },
        Pause::Get {
            event,
            index,
            target,
        } => Pause::Get {
            event: *event,
            index: expression(room, index),
            target: *target,
        },
        Pause::Join { thread, limit } => Pause::Join {
            thread: expression(room, thread),
            limit: expression_if(room, limit),
        },
        Pause::Link(scheduler) => Pause::Link(*scheduler),
        Pause::Unlink => Pause::Unlink,
        Pause::Halt => Pause::Halt,
    }
}
