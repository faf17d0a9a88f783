//! What outside clients order, and the threads that starts make.

ghost use Rattle.std.specs.Prelude.{◌≡◌, map};
ghost use Rattle.loft_tree.specs.View.{argument_of, named_of, order_of};
ghost use Rattle.loft_scopes.specs.Scopes.{kinds_of};
ghost use Rattle.loft_scopes.specs.Faults.{argument_at, argument_faults, argument_kind, order_faults, orders_faults, outer_faults, start_faults};
ghost use Rattle.loft_scopes.specs.FirstFault.{least_of};

use crate::call::{arity, kind_at};
use crate::name::{event, module, scheduler, start, unlike};
use loft_scopes::{NameError, Scope, Table};
use loft_tree::{Argument, Ident, Kind, OutsideOrder, Variable};

/// Where an argument stands.
fn argument_at(argument: &Argument) -> u32
    ensures { result ≡ argument_at (argument_of argument.now) }
{
    match argument {
        Argument::Number { at, .. } => *at,
        Argument::Name(name) => name.at(),
    }
}

/// An argument, and its kind, if it has one.
fn argument(
    table: &Table,
    scope: Scope,
    value: &Argument,
    least: &mut Option<NameError>,
) -> Option<Kind>
    ensures kind { result ≡ argument_kind table.now scope (argument_of value.now) }
    ensures faults { least.new ≡ least_of least.old
        (argument_faults table.now scope (argument_of value.now)) }
{
    match value {
        Argument::Number { .. } => Some(Kind::Int),
        Argument::Name(name) => start(table, scope, name, least),
    }
}

/// The arguments, each against the kind of its parameter, as far as there are parameters.
fn arguments(
    table: &Table,
    scope: Scope,
    parameters: &[Variable],
    values: &[Argument],
    least: &mut Option<NameError>,
)
    ensures { least.new ≡ least_of least.old
        (outer_faults table.now scope
        (kinds_of (map named_of parameters.now)) (map argument_of values.now)) }
{
    for (i, value) in values.iter().enumerate() {
        let wanted = kind_at(parameters, i);
        let found = argument(table, scope, value, least);
        unlike(wanted, found, argument_at(value), least);
    }
}

/// A thread to be made in a scheduler, outside module bodies.
#[tactic(auto, using(loft_scopes::proofs::First::first_fault))]
pub fn creation(
    table: &Table,
    scope: Scope,
    there: &Ident,
    called: &Ident,
    values: &[Argument],
    least: &mut Option<NameError>,
)
    ensures { least.new ≡ least_of least.old
        (start_faults table.now scope there.now called.now (map argument_of values.now)) }
{
    scheduler(table, scope, there, least);
    let parameters = module(table, scope, called, least);
    arity(called.at(), parameters, values.len(), least);
    arguments(table, scope, parameters.unwrap_or(&[]), values, least);
}

/// An order.
#[tactic(auto, using(loft_scopes::proofs::First::first_fault))]
fn order(table: &Table, scope: Scope, ordered: &OutsideOrder, least: &mut Option<NameError>)
    ensures { least.new ≡ least_of least.old (order_faults table.now scope (order_of ordered.now)) }
{
    match ordered {
        OutsideOrder::Create {
            scheduler,
            called,
            arguments,
        } => creation(table, scope, scheduler, called, arguments.as_slice(), least),
        OutsideOrder::Control {
            thread,
            scheduler: there,
            ..
        } => {
            start(table, scope, thread, least);
            scheduler(table, scope, there, least);
        }
        OutsideOrder::Broadcast { event: name, .. } => event(table, scope, name, least),
    }
}

/// Orders.
#[tactic(auto, using(loft_scopes::proofs::First::first_fault))]
pub fn orders(table: &Table, scope: Scope, ordered: &[OutsideOrder], least: &mut Option<NameError>)
    ensures { least.new ≡ least_of least.old
        (orders_faults table.now scope (map order_of ordered.now)) }
{
    for one in ordered {
        order(table, scope, one, least);
    }
}
