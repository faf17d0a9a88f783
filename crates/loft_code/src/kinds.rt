//! Whether the operands of an operation have their kinds (docs/CODE.md, "Valid code").

ghost use Rattle.std.specs.Prelude.{◌≡◌, slice_get};
ghost use Rattle.loft_tree.specs.HeadsFit.{kinds_of};
ghost use Rattle.loft_tree.specs.KindOf.{builtin_kind, compares};
ghost use Rattle.loft_tree.specs.NamedView.{value_of};
ghost use Rattle.loft_tree.specs.NamedFits.{slots_of};
ghost use Rattle.loft_tree.specs.Resolved.{exp_if, target_of, target_if};
ghost use Rattle.loft_code.specs.View.{exp_in, exps_in, action_of, pause_of, operation_of, line_of};
ghost use Rattle.loft_code.specs.Kinds.{same_kind, kind_or_int, kind_of, operands_agree, agrees, has_kind, int_if, agrees_if, arguments_agree, call_agrees, target_kind, thread_if, action_agrees, pause_agrees, operation_agrees, has_bad_kind};

use crate::op::Op;
use crate::raw::CodeLine;
use crate::slots::slot_kind;
use loft_base::ModuleId;
use loft_tree::{
    Action, BinaryOperator, Builtin, Heads, Kind, NamedExpr, Pause, Signature, SlotHead, Target,
};

/// Whether two kinds are the same.
fn same_kind(left: Kind, right: Kind) -> bool
    ensures { result ≡ same_kind left right }
{
    match (left, right) {
        (Kind::Int, Kind::Int) => true,
        (Kind::Int, Kind::Thread) => false,
        (Kind::Thread, Kind::Int) => false,
        (Kind::Thread, Kind::Thread) => true,
    }
}

/// The kind of a value without a name.
fn builtin_kind(builtin: Builtin) -> Kind
    ensures { result ≡ builtin_kind builtin }
{
    match builtin {
        Builtin::Itself => Kind::Thread,
        Builtin::Code | Builtin::Mask => Kind::Int,
    }
}

/// Whether the operator takes two of one kind.
fn compares(operator: BinaryOperator) -> bool
    ensures { result ≡ compares operator }
{
    match operator {
        BinaryOperator::Equal | BinaryOperator::Unequal => true,
        BinaryOperator::Or
        | BinaryOperator::And
        | BinaryOperator::Less
        | BinaryOperator::LessOrEqual
        | BinaryOperator::Greater
        | BinaryOperator::GreaterOrEqual
        | BinaryOperator::Plus
        | BinaryOperator::Minus
        | BinaryOperator::Times
        | BinaryOperator::Divide
        | BinaryOperator::Remainder => false,
    }
}

/// The kind of a slot; that of one that isn't there counts as int.
fn kind_of_slot(signature: &Signature, slot: u32) -> Kind
    ensures { result ≡ kind_or_int (slice_get (slots_of signature.now) slot) }
{
    match slot_kind(signature, slot) {
        Some(kind) => kind,
        None => Kind::Int,
    }
}

/// The kind of an expression, whatever its operands are.
fn kind_of(signature: &Signature, exp: &NamedExpr) -> Kind
    ensures { result ≡ kind_of (slots_of signature.now) (exp_in exp.now) }
{
    match exp {
        NamedExpr::Slot(slot) => kind_of_slot(signature, *slot),
        NamedExpr::Builtin(builtin) => builtin_kind(*builtin),
        NamedExpr::Number(_)
        | NamedExpr::Shared { .. }
        | NamedExpr::Unary { .. }
        | NamedExpr::Binary { .. } => Kind::Int,
    }
}

/// Whether two operands are of one kind where the operator compares them, else ints.
fn operands_agree(operator: BinaryOperator, left: Kind, right: Kind) -> bool
    ensures { result ≡ operands_agree (compares operator) left right }
{
    if compares(operator) {
        same_kind(left, right)
    } else {
        same_kind(left, Kind::Int) && same_kind(right, Kind::Int)
    }
}

/// Whether each operator in an expression has operands of its kinds.
fn agrees(signature: &Signature, exp: &NamedExpr) -> bool
    ensures { result ≡ agrees (slots_of signature.now) (exp_in exp.now) }
{
    match exp {
        NamedExpr::Number(_)
        | NamedExpr::Slot(_)
        | NamedExpr::Shared { .. }
        | NamedExpr::Builtin(_) => true,
        NamedExpr::Unary { operand, .. } => {
            agrees(signature, operand) && same_kind(kind_of(signature, operand), Kind::Int)
        }
        NamedExpr::Binary {
            operator,
            left,
            right,
        } => {
            agrees(signature, left)
                && agrees(signature, right)
                && operands_agree(
                    *operator,
                    kind_of(signature, left),
                    kind_of(signature, right),
                )
        }
    }
}

/// Whether an expression has this kind.
fn has_kind(signature: &Signature, kind: Kind, exp: &NamedExpr) -> bool
    ensures { result ≡ has_kind (slots_of signature.now) kind (exp_in exp.now) }
{
    agrees(signature, exp) && same_kind(kind_of(signature, exp), kind)
}

/// Whether an expression that may be left out is an int.
fn int_if(signature: &Signature, value: &Option<NamedExpr>) -> bool
    ensures { result ≡ int_if (slots_of signature.now) (exp_if (value_of value.now)) }
{
    match value {
        Some(exp) => has_kind(signature, Kind::Int, exp),
        None => true,
    }
}

/// Whether each operator in an expression that may be left out has operands of its kinds.
fn agrees_if(signature: &Signature, value: &Option<NamedExpr>) -> bool
    ensures { result ≡ agrees_if (slots_of signature.now) (exp_if (value_of value.now)) }
{
    match value {
        Some(exp) => agrees(signature, exp),
        None => true,
    }
}

/// Whether there are as many arguments as parameters, each of its parameter's kind.
fn arguments_agree(signature: &Signature, parameters: &[SlotHead], arguments: &[NamedExpr]) -> bool
    ensures { result
        ≡ arguments_agree (slots_of signature.now) (kinds_of parameters.now) (exps_in arguments.now) }
{
    match parameters {
        [] => match arguments {
            [] => true,
            [_, ..] => false,
        },
        [parameter, parameters @ ..] => match arguments {
            [] => false,
            [argument, arguments @ ..] => {
                has_kind(signature, parameter.kind, argument)
                    && arguments_agree(signature, parameters, arguments)
            }
        },
    }
}

/// Whether arguments agree with the parameters of the module that is called.
fn call_agrees(
    heads: &Heads,
    signature: &Signature,
    module: ModuleId,
    arguments: &[NamedExpr],
) -> bool
    ensures { result ≡ call_agrees (slots_of signature.now)
        (slice_get heads.now.modules «module».0) (exps_in arguments.now) }
{
    match heads.modules.as_slice().get(module.0 as usize) {
        Some(called) => arguments_agree(signature, called.parameters.as_slice(), arguments),
        None => false,
    }
}

/// The kind of a variable that is set.
fn target_kind(signature: &Signature, target: Target) -> Kind
    ensures { result ≡ target_kind (slots_of signature.now) (target_of target) }
{
    match target {
        Target::Slot(slot) => kind_of_slot(signature, slot),
        Target::Shared { .. } => Kind::Int,
    }
}

/// Whether a variable that a new thread is assigned to, if there is one, is a thread.
fn thread_if(signature: &Signature, target: Option<Target>) -> bool
    ensures { result ≡ thread_if (slots_of signature.now) (target_if target) }
{
    match target {
        Some(target) => same_kind(target_kind(signature, target), Kind::Thread),
        None => true,
    }
}

/// Whether the operands of an action have their kinds.
fn action_agrees(heads: &Heads, signature: &Signature, action: &Action) -> bool
    ensures { result ≡ action_agrees (slots_of signature.now) heads.now (action_of action.now) }
{
    match action {
        Action::Assign { target, value } => {
            has_kind(signature, target_kind(signature, *target), value)
        }
        Action::Make { target, creation } => {
            thread_if(signature, *target)
                && call_agrees(
                    heads,
                    signature,
                    creation.module,
                    creation.arguments.as_slice(),
                )
        }
        Action::PrintText { value, .. } => agrees_if(signature, value),
        Action::PrintValue(value) => agrees(signature, value),
        Action::Generate { value, .. } | Action::Broadcast { value, .. } => int_if(
            signature, value,
        ),
        Action::Control { thread, .. } => has_kind(signature, Kind::Thread, thread),
    }
}

/// Whether the operands of a stop have their kinds.
fn pause_agrees(signature: &Signature, pause: &Pause) -> bool
    ensures { result ≡ pause_agrees (slots_of signature.now) (pause_of pause.now) }
{
    match pause {
        Pause::Cooperate { instants } => int_if(signature, instants),
        Pause::Await { limit, .. } => int_if(signature, limit),
        Pause::Get { index, target, .. } => {
            has_kind(signature, Kind::Int, index)
                && same_kind(target_kind(signature, *target), Kind::Int)
        }
        Pause::Join { thread, limit } => {
            has_kind(signature, Kind::Thread, thread) && int_if(signature, limit)
        }
        Pause::Link(_) | Pause::Unlink | Pause::Halt => true,
    }
}

/// Whether the operands of an operation have their kinds.
fn operation_agrees(heads: &Heads, signature: &Signature, op: &Op) -> bool
    ensures { result ≡ operation_agrees (slots_of signature.now) heads.now (operation_of op.now) }
{
    match op {
        Op::Do(action) => action_agrees(heads, signature, action),
        Op::Hold { pause, .. } => pause_agrees(signature, pause),
        Op::Run {
            module,
            arguments,
            ..
        } => call_agrees(heads, signature, *module, arguments.as_slice()),
        Op::Branch { test, .. } => has_kind(signature, Kind::Int, test),
        Op::Count(count) => has_kind(signature, Kind::Int, count),
        Op::Enter | Op::Turn { .. } | Op::Jump { .. } | Op::End => true,
    }
}

/// Whether an operand has the wrong kind, or arguments don't agree with the parameters of the module that is called.
pub fn has_bad_kind(heads: &Heads, signature: &Signature, line: &CodeLine) -> bool
    ensures { result ≡ has_bad_kind heads.now (slots_of signature.now) (line_of line.now) }
{
    !operation_agrees(heads, signature, &line.op)
}
