//! Statements, with the bodies in them.

ghost use Rattle.std.specs.Prelude.{◌≡◌};
ghost use Rattle.loft_tree.specs.View.{statement_of, statements_of};
ghost use Rattle.loft_scopes.specs.Faults.{body_faults, statement_faults};
ghost use Rattle.loft_scopes.specs.FirstFault.{least_of};

use crate::call::{call, creation};
use crate::expression::{expression, wants, wants_if};
use crate::name::scheduler;
use crate::simple::{assign, assign_create, control, event_value, get, join, print_text, select};
use loft_scopes::{NameError, Scope, Table};
use loft_tree::{Kind, Stmt};

/// A statement.
#[cycle(statement)]
#[tactic(auto, using(loft_scopes::proofs::First::statement_fault))]
fn statement(table: &Table, scope: Scope, s: &Stmt, least: &mut Option<NameError>)
    ensures { least.new ≡ least_of least.old
        (statement_faults table.now scope (statement_of s.now)) }
{
    match s {
        Stmt::Assign { target, value } => assign(table, scope, target, value, least),
        Stmt::AssignCreate {
            target,
            creation,
            ..
        } => assign_create(table, scope, target, creation, least),
        Stmt::Create { creation: made, .. } => creation(table, scope, made, least),
        Stmt::PrintText { value, .. } => print_text(table, scope, value, least),
        Stmt::PrintValue { value, .. } => {
            expression(table, scope, value, least);
        }
        Stmt::Unlink { .. } | Stmt::Halt { .. } => {}
        Stmt::Cooperate { instants, .. } => wants_if(table, scope, Kind::Int, instants, least),
        Stmt::Generate { event, value, .. } | Stmt::Broadcast { event, value, .. } => event_value(
            table, scope, event, value, least,
        ),
        Stmt::Await { event, limit, .. } => event_value(table, scope, event, limit, least),
        Stmt::Select { events, limit, .. } => select(table, scope, events.as_slice(), limit, least),
        Stmt::Get {
            event,
            index,
            target,
            ..
        } => get(table, scope, event, index, target, least),
        Stmt::Join { thread, limit, .. } => join(table, scope, thread, limit, least),
        Stmt::Control {
            thread,
            scheduler,
            ..
        } => control(table, scope, thread, scheduler, least),
        Stmt::Link {
            scheduler: name,
            ..
        } => scheduler(table, scope, name, least),
        Stmt::Run {
            called,
            arguments,
            ..
        } => call(table, scope, called, arguments.as_slice(), least),
        Stmt::If {
            test,
            first,
            second,
            ..
        } => {
            wants(table, scope, Kind::Int, test, least);
            body(table, scope, first.as_slice(), least);
            body(table, scope, second.as_slice(), least);
        }
        Stmt::While {
            test,
            body: inner,
            ..
        }
        | Stmt::Repeat {
            count: test,
            body: inner,
            ..
        } => {
            wants(table, scope, Kind::Int, test, least);
            body(table, scope, inner.as_slice(), least);
        }
    }
}

/// The statements of a body.
#[cycle(statement)]
#[tactic(auto, using(loft_scopes::proofs::First::statement_fault))]
pub fn body(table: &Table, scope: Scope, statements: &[Stmt], least: &mut Option<NameError>)
    ensures { least.new ≡ least_of least.old
        (body_faults table.now scope (statements_of statements.now)) }
{
    for s in statements {
        statement(table, scope, s, least);
    }
}
