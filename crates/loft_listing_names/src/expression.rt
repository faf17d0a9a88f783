//! Expressions in operations.

ghost use Rattle.std.specs.Prelude.{◌≡◌, map};
ghost use Rattle.std.specs.List.{list_all};
ghost use Rattle.loft_tree.specs.View.{creation_of, expression_of, value_of};
ghost use Rattle.loft_listing_names.specs.Named.{creation_names, expression_names, value_names};

use crate::name::{names_module, names_scheduler, names_variable};
use loft_scopes::{Scope, Table};
use loft_tree::{Creation, Expr};

/// Whether the names of an expression mean variables.
pub fn expression_names(table: &Table, scope: Scope, e: &Expr) -> bool
    ensures { result ≡ expression_names table.now scope (expression_of e.now) }
{
    match e {
        Expr::Number { .. } => true,
        Expr::Name(name) => names_variable(table, scope, name),
        Expr::Builtin { .. } => true,
        Expr::Unary { operand, .. } => expression_names(table, scope, operand),
        Expr::Binary { left, right, .. } => {
            expression_names(table, scope, left) && expression_names(table, scope, right)
        }
    }
}

/// The same for what may be there.
pub fn value_names(table: &Table, scope: Scope, e: &Option<Expr>) -> bool
    ensures { result ≡ value_names table.now scope (value_of e.now) }
{
    match e {
        Some(e) => expression_names(table, scope, e),
        None => true,
    }
}

/// The same for each of several.
pub fn all_names(table: &Table, scope: Scope, es: &[Expr]) -> bool
    ensures { result ≡ list_all (expression_names table.now scope) (map expression_of es.now) }
{
    es.iter().all(|e| expression_names(table, scope, e))
}

/// Whether a thread to be made is named by a scheduler and a module.
pub fn creation_names(table: &Table, scope: Scope, made: &Creation) -> bool
    ensures { result ≡ creation_names table.now scope (creation_of made.now) }
{
    names_scheduler(table, scope, &made.scheduler)
        && names_module(table, scope, &made.called)
        && all_names(table, scope, made.arguments.as_slice())
}
