//! Expressions and their kinds.

ghost use Rattle.std.specs.Prelude.{◌≡◌};
ghost use Rattle.loft_tree.specs.View.{expression_of, value_of};
ghost use Rattle.loft_tree.specs.KindOf.{builtin_kind, compares};
ghost use Rattle.loft_scopes.specs.Faults.{begin_of, expression_faults, kind_of, wants, wants_if};
ghost use Rattle.loft_scopes.specs.FirstFault.{least_of};

use crate::name::{unlike, value};
use loft_scopes::{NameError, Scope, Table};
use loft_tree::{BinaryOperator, Builtin, Expr, Kind};

/// Where an expression begins.
pub fn begin_of(expression: &Expr) -> u32
    ensures { result ≡ begin_of (expression_of expression.now) }
{
    match expression {
        Expr::Number { at, .. } | Expr::Builtin { at, .. } | Expr::Unary { at, .. } => *at,
        Expr::Name(name) => name.at(),
        Expr::Binary { left, .. } => begin_of(left),
    }
}

/// The kind of a value that has no name.
fn builtin_kind(builtin: Builtin) -> Kind
    ensures { result ≡ builtin_kind builtin }
{
    match builtin {
        Builtin::Itself => Kind::Thread,
        Builtin::Code | Builtin::Mask => Kind::Int,
    }
}

/// Whether an operator compares two of one kind.
fn compares(operator: BinaryOperator) -> bool
    ensures { result ≡ compares operator }
{
    matches!(operator, BinaryOperator::Equal | BinaryOperator::Unequal)
}

/// An expression, and its kind, if it has one.
#[tactic(auto, using(loft_scopes::proofs::First::first_fault))]
pub fn expression(
    table: &Table,
    scope: Scope,
    e: &Expr,
    least: &mut Option<NameError>,
) -> Option<Kind>
    ensures kind { result ≡ kind_of table.now scope (expression_of e.now) }
    ensures faults { least.new ≡ least_of least.old
        (expression_faults table.now scope (expression_of e.now)) }
{
    match e {
        Expr::Number { .. } => Some(Kind::Int),
        Expr::Name(name) => value(table, scope, name, least),
        Expr::Builtin { builtin, .. } => Some(builtin_kind(*builtin)),
        Expr::Unary { operand, .. } => {
            let kind = expression(table, scope, operand, least);
            unlike(Some(Kind::Int), kind, begin_of(operand), least);
            Some(Kind::Int)
        }
        Expr::Binary {
            operator,
            left,
            right,
        } => {
            let left_kind = expression(table, scope, left, least);
            let right_kind = expression(table, scope, right, least);
            if compares(*operator) {
                unlike(left_kind, right_kind, begin_of(right), least);
            } else {
                unlike(Some(Kind::Int), left_kind, begin_of(left), least);
                unlike(Some(Kind::Int), right_kind, begin_of(right), least);
            }
            Some(Kind::Int)
        }
    }
}

/// An expression that has to be of this kind.
#[tactic(auto, using(loft_scopes::proofs::First::first_fault))]
pub fn wants(table: &Table, scope: Scope, kind: Kind, e: &Expr, least: &mut Option<NameError>)
    ensures { least.new ≡ least_of least.old (wants table.now scope kind (expression_of e.now)) }
{
    let found = expression(table, scope, e, least);
    unlike(Some(kind), found, begin_of(e), least);
}

/// The same, if there is one.
pub fn wants_if(
    table: &Table,
    scope: Scope,
    kind: Kind,
    e: &Option<Expr>,
    least: &mut Option<NameError>,
)
    ensures { least.new ≡ least_of least.old (wants_if table.now scope kind (value_of e.now)) }
{
    if let Some(e) = e {
        wants(table, scope, kind, e, least);
    }
}
