//! Statements without bodies, each with its parts in order.

ghost use Rattle.std.specs.Prelude.{◌≡◌, [], map};
ghost use Rattle.loft_tree.specs.Source.{Assign, AssignCreate, ControlThread, Generate, Get, Join, PrintText, Select};
ghost use Rattle.loft_tree.specs.View.{creation_of, event_name_of, expression_of, value_of};
ghost use Rattle.loft_tree.specs.declared.kinds.Control.TheVariants as control;
ghost use Rattle.loft_scopes.specs.Faults.{statement_faults};
ghost use Rattle.loft_scopes.specs.FirstFault.{least_of};

use crate::expression::{begin_of, expression, wants, wants_if};
use crate::{call, name};
use loft_scopes::{NameError, Scope, Table};
use loft_tree::{Creation, EventName, Expr, Ident, Kind};

/// `x = E;`
#[tactic(auto, using(loft_scopes::proofs::First::first_fault))]
pub fn assign(table: &Table, scope: Scope, name: &Ident, e: &Expr, least: &mut Option<NameError>)
    ensures { least.new ≡ least_of least.old
        (statement_faults table.now scope (Assign name.now (expression_of e.now))) }
{
    let wanted = name::value(table, scope, name, least);
    let found = expression(table, scope, e, least);
    name::unlike(wanted, found, begin_of(e), least);
}

/// `t = create S.m(E, F);`
#[tactic(auto, using(loft_scopes::proofs::First::first_fault))]
pub fn assign_create(
    table: &Table,
    scope: Scope,
    name: &Ident,
    made: &Creation,
    least: &mut Option<NameError>,
)
    ensures { least.new ≡ least_of least.old
        (statement_faults table.now scope (AssignCreate name.now 0 (creation_of made.now))) }
{
    name::target(table, scope, Kind::Thread, name, least);
    call::creation(table, scope, made, least);
}

/// `print "..", E;`, where the value may be left out.
#[tactic(auto, using(loft_scopes::proofs::First::first_fault))]
pub fn print_text(table: &Table, scope: Scope, value: &Option<Expr>, least: &mut Option<NameError>)
    ensures { least.new ≡ least_of least.old
        (statement_faults table.now scope (PrintText 0 [] (value_of value.now))) }
{
    if let Some(value) = value {
        expression(table, scope, value, least);
    }
}

/// `generate e, E;`, `broadcast e, E;` and `await e for E;`, where the value may be left out.
#[tactic(auto, using(loft_scopes::proofs::First::first_fault))]
pub fn event_value(
    table: &Table,
    scope: Scope,
    event: &EventName,
    value: &Option<Expr>,
    least: &mut Option<NameError>,
)
    ensures { least.new ≡ least_of least.old
        (statement_faults table.now scope (Generate 0 (event_name_of event.now) (value_of value.now))) }
{
    name::event(table, scope, event, least);
    wants_if(table, scope, Kind::Int, value, least);
}

/// `select e, g for E;`, where the limit may be left out.
#[tactic(auto, using(loft_scopes::proofs::First::first_fault))]
pub fn select(
    table: &Table,
    scope: Scope,
    events: &[EventName],
    limit: &Option<Expr>,
    least: &mut Option<NameError>,
)
    ensures { least.new ≡ least_of least.old
        (statement_faults table.now scope (Select 0 (map event_name_of events.now) (value_of limit.now))) }
{
    name::events(table, scope, events, least);
    wants_if(table, scope, Kind::Int, limit, least);
}

/// `get e at E into x;`
#[tactic(auto, using(loft_scopes::proofs::First::first_fault))]
pub fn get(
    table: &Table,
    scope: Scope,
    event: &EventName,
    index: &Expr,
    target: &Ident,
    least: &mut Option<NameError>,
)
    ensures { least.new ≡ least_of least.old
        (statement_faults table.now scope (Get 0 (event_name_of event.now) (expression_of index.now) target.now)) }
{
    name::event(table, scope, event, least);
    wants(table, scope, Kind::Int, index, least);
    name::target(table, scope, Kind::Int, target, least);
}

/// `join E for F;`, where the limit may be left out.
#[tactic(auto, using(loft_scopes::proofs::First::first_fault))]
pub fn join(
    table: &Table,
    scope: Scope,
    thread: &Expr,
    limit: &Option<Expr>,
    least: &mut Option<NameError>,
)
    ensures { least.new ≡ least_of least.old
        (statement_faults table.now scope (Join 0 (expression_of thread.now) (value_of limit.now))) }
{
    wants(table, scope, Kind::Thread, thread, least);
    wants_if(table, scope, Kind::Int, limit, least);
}

/// `stop E in S;`, `suspend E in S;` and `resume E in S;`
#[tactic(auto, using(loft_scopes::proofs::First::first_fault))]
pub fn control(
    table: &Table,
    scope: Scope,
    thread: &Expr,
    scheduler: &Ident,
    least: &mut Option<NameError>,
)
    ensures { least.new ≡ least_of least.old
        (statement_faults table.now scope (ControlThread 0 control.Stop (expression_of thread.now) scheduler.now)) }
{
    wants(table, scope, Kind::Thread, thread, least);
    name::scheduler(table, scope, scheduler, least);
}
