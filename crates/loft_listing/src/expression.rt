//! Expressions, with names in place of numbers.

ghost use Rattle.std.specs.Prelude.{◌≡◌, map};
ghost use Rattle.loft_tree.specs.NamedView as view;
ghost use Rattle.loft_tree.specs.Resolved.{exp_if, target_of};
ghost use Rattle.loft_tree.specs.Source.{Unary, Binary};
ghost use Rattle.loft_tree.specs.View.{expression_of, value_of};
ghost use Rattle.loft_code.specs.View.{exp_in, exps_in};
ghost use Rattle.loft_listing.specs.Making.{Makes};
ghost use Rattle.loft_listing.specs.Called.{called_target, called_expression, called_value};

use crate::name;
use loft_base::Room;
use loft_tree::{BinaryOperator, Expr, Heads, Ident, NamedExpr, Signature, Target, UnaryOperator};

/// The name of a variable that is set.
pub fn target(room: &mut Room, heads: &Heads, module: &Signature, target: Target) -> Ident
    ensures { Makes room.old room.new
        (result ≡ called_target heads.now «module».now (target_of target)) }
{
    match target {
        Target::Slot(slot) => name::slot(room, module, slot),
        Target::Shared { shared, .. } => name::shared(room, heads, shared),
    }
}

/// An expression.
pub fn expression(room: &mut Room, heads: &Heads, module: &Signature, e: &NamedExpr) -> Expr
    ensures { Makes room.old room.new
        (expression_of result ≡ called_expression heads.now «module».now (exp_in e.now)) }
{
    match e {
        NamedExpr::Number(value) => Expr::Number {
            at: 0,
            value: *value,
        },
        NamedExpr::Slot(slot) => Expr::Name(name::slot(room, module, *slot)),
        NamedExpr::Shared { shared, .. } => Expr::Name(name::shared(room, heads, *shared)),
        NamedExpr::Builtin(builtin) => Expr::Builtin {
            at: 0,
            builtin: *builtin,
        },
        NamedExpr::Unary { operator, operand } => {
            let operand = expression(room, heads, module, operand);
            unary(room, *operator, operand)
        }
        NamedExpr::Binary {
            operator,
            left,
            right,
        } => {
            let left = expression(room, heads, module, left);
            let right = expression(room, heads, module, right);
            binary(room, *operator, left, right)
        }
    }
}

/// What stands in place of an expression for which memory ran out.
fn nothing() -> Expr {
    Expr::Number { at: 0, value: 0 }
}

/// An operator before its operand.
fn unary(room: &mut Room, operator: UnaryOperator, operand: Expr) -> Expr
    ensures { Makes room.old room.new
        (expression_of result ≡ Unary 0 operator (expression_of operand)) }
{
    match Box::new(room.alloc, operand) {
        Ok(operand) => Expr::Unary {
            at: 0,
            operator,
            operand,
        },
        Err(_) => {
            room.is_whole = false;
            nothing()
        }
    }
}

/// An operator between its operands.
fn binary(room: &mut Room, operator: BinaryOperator, left: Expr, right: Expr) -> Expr
    ensures { Makes room.old room.new
        (expression_of result ≡ Binary operator (expression_of left) (expression_of right)) }
{
    match Box::new(room.alloc, left) {
        Ok(left) => match Box::new(room.alloc, right) {
            Ok(right) => Expr::Binary {
                operator,
                left,
                right,
            },
            Err(_) => {
                room.is_whole = false;
                nothing()
            }
        },
        Err(_) => {
            room.is_whole = false;
            nothing()
        }
    }
}

/// An expression, where there is one.
pub fn value(
    room: &mut Room,
    heads: &Heads,
    module: &Signature,
    e: &Option<NamedExpr>,
) -> Option<Expr>
    ensures { Makes room.old room.new
        (value_of result ≡ called_value heads.now «module».now (exp_if (view.value_of e.now))) }
{
    match e {
        Some(e) => Some(expression(room, heads, module, e)),
        None => None,
    }
}

/// Expressions.
pub fn expressions(
    room: &mut Room,
    heads: &Heads,
    module: &Signature,
    es: &[NamedExpr],
) -> Vec<Expr>
    ensures { Makes room.old room.new
        (map expression_of result.items
        ≡ map (called_expression heads.now «module».now) (exps_in es.now)) }
{
    let mut named = Vec::new(room.alloc);
    for e in es {
        let next = expression(room, heads, module, e);
        room.push_to(&mut named, next);
    }
    named
}
