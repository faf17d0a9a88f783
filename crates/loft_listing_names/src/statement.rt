//! Statements in operations.

ghost use Rattle.std.specs.Prelude.{◌≡◌};
ghost use Rattle.loft_tree.specs.View.{statement_of};
ghost use Rattle.loft_listing_names.specs.Named.{statement_names};

use crate::expression::{all_names, creation_names, expression_names, value_names};
use crate::name::{name_events, names_event, names_module, names_scheduler, names_variable};
use loft_scopes::{Scope, Table};
use loft_tree::Stmt;

/// Whether the names of a statement are declared, each as what it has to be there. No operation is a
/// statement with bodies.
pub fn statement_names(table: &Table, scope: Scope, s: &Stmt) -> bool
    ensures { result ≡ statement_names table.now scope (statement_of s.now) }
{
    match s {
        Stmt::Assign { target, value } => {
            names_variable(table, scope, target) && expression_names(table, scope, value)
        }
        Stmt::AssignCreate {
            target,
            creation,
            ..
        } => names_variable(table, scope, target) && creation_names(table, scope, creation),
        Stmt::Create { creation, .. } => creation_names(table, scope, creation),
        Stmt::PrintText { value, .. } => value_names(table, scope, value),
        Stmt::PrintValue { value, .. } => expression_names(table, scope, value),
        Stmt::Cooperate { instants, .. } => value_names(table, scope, instants),
        Stmt::Generate { event, value, .. } => {
            names_event(table, scope, event) && value_names(table, scope, value)
        }
        Stmt::Await { event, limit, .. } => {
            names_event(table, scope, event) && value_names(table, scope, limit)
        }
        Stmt::Select { events, limit, .. } => {
            name_events(table, scope, events.as_slice()) && value_names(table, scope, limit)
        }
        Stmt::Get {
            event,
            index,
            target,
            ..
        } => {
            names_event(table, scope, event)
                && expression_names(table, scope, index)
                && names_variable(table, scope, target)
        }
        Stmt::Join { thread, limit, .. } => {
            expression_names(table, scope, thread) && value_names(table, scope, limit)
        }
        Stmt::Control {
            thread,
            scheduler,
            ..
        } => expression_names(table, scope, thread) && names_scheduler(table, scope, scheduler),
        Stmt::Broadcast { event, value, .. } => {
            names_event(table, scope, event) && value_names(table, scope, value)
        }
        Stmt::Link { scheduler, .. } => names_scheduler(table, scope, scheduler),
        Stmt::Unlink { .. } => true,
        Stmt::Run {
            called,
            arguments,
            ..
        } => { names_module(table, scope, called) && all_names(table, scope, arguments.as_slice()) }
        Stmt::Halt { .. } => true,
        Stmt::If { .. } => false,
        Stmt::While { .. } => false,
        Stmt::Repeat { .. } => false,
    }
}
