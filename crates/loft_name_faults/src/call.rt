//! Calls of modules in bodies.

ghost use Rattle.std.specs.Prelude.{◌≡◌, map, slice_get};
ghost use Rattle.std.specs.Option.{option_map};
ghost use Rattle.loft_tree.specs.View.{creation_of, expression_of, named_of};
ghost use Rattle.loft_scopes.specs.Scopes.{kinds_of};
ghost use Rattle.loft_scopes.specs.Faults.{arguments_faults, arity_faults, call_faults, creation_faults};
ghost use Rattle.loft_scopes.specs.FirstFault.{least_of};

use crate::expression::{begin_of, expression};
use crate::name::{module, scheduler, unlike};
use loft_scopes::{NameError, Scope, Table, note};
use loft_tree::{Creation, Expr, Ident, Kind, Variable};

/// A call of a module, if it is one, with so many arguments.
pub fn arity(at: u32, parameters: Option<&[Variable]>, many: usize, least: &mut Option<NameError>)
    ensures { least.new ≡ least_of least.old
        (arity_faults at
        (option_map (λ ps. kinds_of (map named_of ps.now)) parameters.entry) many) }
{
    if let Some(parameters) = parameters {
        if many != parameters.len() {
            note(least, NameError::Arity(at));
        }
    }
}

/// The kind of a parameter, if there are so many.
pub fn kind_at(parameters: &[Variable], index: usize) -> Option<Kind>
    ensures { result ≡ slice_get (kinds_of (map named_of parameters.now)) index }
{
    let parameter = parameters.get(index)?;
    Some(parameter.kind)
}

/// The arguments, each against the kind of its parameter, as far as there are parameters.
#[tactic(auto, using(loft_scopes::proofs::First::first_fault))]
fn arguments(
    table: &Table,
    scope: Scope,
    parameters: &[Variable],
    values: &[Expr],
    least: &mut Option<NameError>,
)
    ensures { least.new ≡ least_of least.old
        (arguments_faults table.now scope
        (kinds_of (map named_of parameters.now)) (map expression_of values.now)) }
{
    for (i, value) in values.iter().enumerate() {
        let wanted = kind_at(parameters, i);
        let found = expression(table, scope, value, least);
        unlike(wanted, found, begin_of(value), least);
    }
}

/// A call of a module.
#[tactic(auto, using(loft_scopes::proofs::First::first_fault))]
pub fn call(
    table: &Table,
    scope: Scope,
    called: &Ident,
    values: &[Expr],
    least: &mut Option<NameError>,
)
    ensures { least.new ≡ least_of least.old
        (call_faults table.now scope called.now (map expression_of values.now)) }
{
    let parameters = module(table, scope, called, least);
    arity(called.at(), parameters, values.len(), least);
    arguments(table, scope, parameters.unwrap_or(&[]), values, least);
}

/// A thread to be made.
#[tactic(auto, using(loft_scopes::proofs::First::first_fault))]
pub fn creation(table: &Table, scope: Scope, made: &Creation, least: &mut Option<NameError>)
    ensures { least.new ≡ least_of least.old
        (creation_faults table.now scope (creation_of made.now)) }
{
    scheduler(table, scope, &made.scheduler, least);
    call(table, scope, &made.called, made.arguments.as_slice(), least);
}
