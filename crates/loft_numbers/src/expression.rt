//! Expressions.

ghost use Rattle.std.specs.Prelude.{◌≡◌, true, IfOk, map};
ghost use Rattle.loft_tree.specs.View.{expression_of, value_of as value_in};
ghost use Rattle.loft_tree.specs.NamedView as view;
ghost use Rattle.loft_numbers.specs.Numbers.{term_of, terms_of, value_of};

use crate::name::variable;
use loft_base::{NoMemory, Room};
use loft_scopes::{Scope, Table};
use loft_tree::{Expr, NamedExpr};
use std::alloc::Global;

/// An expression with numbers in place of its names (docs/LANGUAGE.md, "Numbers of names").
///
/// # Errors
///
/// Out of memory.
pub fn term(alloc: Global, table: &Table, scope: Scope, e: &Expr) -> Result<NamedExpr, NoMemory>
    ensures { IfOk result (λ t. view.term_of t ≡ term_of table.now scope (expression_of e.now)) }
{
    match e {
        Expr::Number { value, .. } => Ok(NamedExpr::Number(*value)),
        Expr::Name(name) => Ok(variable(table, scope, name)),
        Expr::Builtin { builtin, .. } => Ok(NamedExpr::Builtin(*builtin)),
        Expr::Unary {
            operator,
            operand,
            ..
        } => {
            let operand = term(alloc, table, scope, operand)?;
            Ok(NamedExpr::Unary {
                operator: *operator,
                operand: Box::new(alloc, operand)?,
            })
        }
        Expr::Binary {
            operator,
            left,
            right,
        } => {
            let left = term(alloc, table, scope, left)?;
            let right = term(alloc, table, scope, right)?;
            Ok(NamedExpr::Binary {
                operator: *operator,
                left: Box::new(alloc, left)?,
                right: Box::new(alloc, right)?,
            })
        }
    }
}

/// The same from a room.
pub fn term_in(room: &mut Room, table: &Table, scope: Scope, e: &Expr) -> NamedExpr
    ensures before { room.new.is_whole ≡ true → room.old.is_whole ≡ true }
    ensures value { room.new.is_whole ≡ true → view.term_of result ≡ term_of table.now scope (expression_of e.now) }
{
    let made = term(room.alloc, table, scope, e);
    room.or(made, NamedExpr::Number(0))
}

/// The same, if there is one.
pub fn term_if(room: &mut Room, table: &Table, scope: Scope, e: &Option<Expr>) -> Option<NamedExpr>
    ensures before { room.new.is_whole ≡ true → room.old.is_whole ≡ true }
    ensures value { room.new.is_whole ≡ true → view.value_of result ≡ value_of table.now scope (value_in e.now) }
{
    match e {
        Some(e) => Some(term_in(room, table, scope, e)),
        None => None,
    }
}

/// Expressions.
pub fn terms(room: &mut Room, table: &Table, scope: Scope, es: &[Expr]) -> Vec<NamedExpr>
    ensures before { room.new.is_whole ≡ true → room.old.is_whole ≡ true }
    ensures value { room.new.is_whole ≡ true → map view.term_of result.items ≡ terms_of table.now scope (map expression_of es.now) }
{
    let mut all = Vec::new(room.alloc);
    for e in es {
        let term = term_in(room, table, scope, e);
        room.push_to(&mut all, term);
    }
    all
}
