//! Statements, with the bodies in them.

ghost use Rattle.std.specs.Prelude.{◌≡◌, ◌+◌, ◌<◌, ◌^◌, true, IfOk};
ghost use Rattle.loft_tree.specs.View.{statement_of, statements_of, value_of as value_in};
ghost use Rattle.loft_tree.specs.NamedTree.{PrintText};
ghost use Rattle.loft_tree.specs.NamedView as view;
ghost use Rattle.loft_numbers.specs.Numbers as numbers;
ghost use Rattle.loft_numbers.specs.Numbers.{stops_in, body_stops};

use crate::call::creation;
use crate::expression::{term_if, term_in, terms};
use crate::name::{event_use, event_uses, module, one_event, scheduler, target};
use loft_base::{NoMemory, Room};
use loft_scopes::{Scope, Table};
use loft_tree::{Action, Expr, NamedExpr, NamedStmt, Pause, SharedText, Stmt, Text};
use std::alloc::Global;

/// The number of the next stop.
fn next_stop(stops: &mut u32) -> u32
    requires { stops.old + 1 < 2 ^ 32 }
    ensures number { result ≡ stops.old + 1 }
    ensures counted { stops.new ≡ stops.old + 1 }
{
    *stops += 1;
    *stops
}

/// `print "..", E;`, where the value may be left out.
fn print_text(
    room: &mut Room,
    table: &Table,
    scope: Scope,
    text: &Text,
    value: &Option<Expr>,
) -> Action
    ensures before { room.new.is_whole ≡ true → room.old.is_whole ≡ true }
    ensures value { room.new.is_whole ≡ true → view.action_of result ≡ PrintText text.now (numbers.value_of table.now scope (value_in value.now)) }
{
    let value = term_if(room, table, scope, value);
    match SharedText::from_slice(room.alloc, text.bytes()) {
        Ok(text) => Action::PrintText { text, value },
        Err(_) => {
            room.is_whole = false;
            Action::PrintValue(NamedExpr::Number(0))
        }
    }
}

/// A statement, after so many stops of its module.
#[cycle(statement)]
#[tactic(auto, using(loft_tree::proofs::Trees::statements, loft_tree::proofs::NamedTrees::named_statements))]
fn statement(room: &mut Room, table: &Table, scope: Scope, s: &Stmt, stops: &mut u32) -> NamedStmt
    requires { stops.old + stops_in (statement_of s.now) < 2 ^ 32 }
    ensures before { room.new.is_whole ≡ true → room.old.is_whole ≡ true }
    ensures statement { room.new.is_whole ≡ true → view.statement_of result
        ≡ numbers.statement_of table.now scope (statement_of s.now) stops.old }
    ensures counted { stops.new ≡ stops.old + stops_in (statement_of s.now) }
{
    match s {
        Stmt::Assign {
            target: name,
            value,
        } => NamedStmt::Do {
            at: name.at(),
            action: Action::Assign {
                target: target(table, scope, name),
                value: term_in(room, table, scope, value),
            },
        },
        Stmt::AssignCreate {
            target: name,
            at,
            creation: made,
        } => NamedStmt::Do {
            at: *at,
            action: Action::Make {
                target: Some(target(table, scope, name)),
                creation: creation(room, table, scope, made),
            },
        },
        Stmt::Create { at, creation: made } => NamedStmt::Do {
            at: *at,
            action: Action::Make {
                target: None,
                creation: creation(room, table, scope, made),
            },
        },
        Stmt::PrintText { at, text, value } => NamedStmt::Do {
            at: *at,
            action: print_text(room, table, scope, text, value),
        },
        Stmt::PrintValue { at, value } => NamedStmt::Do {
            at: *at,
            action: Action::PrintValue(term_in(room, table, scope, value)),
        },
        Stmt::Cooperate { at, instants } => NamedStmt::Hold {
            at: *at,
            stop: next_stop(stops),
            pause: Pause::Cooperate {
                instants: term_if(room, table, scope, instants),
            },
        },
        Stmt::Generate { at, event, value } => NamedStmt::Do {
            at: *at,
            action: Action::Generate {
                event: event_use(table, scope, event),
                value: term_if(room, table, scope, value),
            },
        },
        Stmt::Await { at, event, limit } => NamedStmt::Hold {
            at: *at,
            stop: next_stop(stops),
            pause: Pause::Await {
                events: one_event(room, table, scope, event),
                limit: term_if(room, table, scope, limit),
            },
        },
        Stmt::Select { at, events, limit } => NamedStmt::Hold {
            at: *at,
            stop: next_stop(stops),
            pause: Pause::Await {
                events: event_uses(room, table, scope, events.as_slice()),
                limit: term_if(room, table, scope, limit),
            },
        },
        Stmt::Get {
            at,
            event,
            index,
            target: name,
        } => NamedStmt::Hold {
            at: *at,
            stop: next_stop(stops),
            pause: Pause::Get {
                event: event_use(table, scope, event),
                index: term_in(room, table, scope, index),
                target: target(table, scope, name),
            },
        },
        Stmt::Join { at, thread, limit } => NamedStmt::Hold {
            at: *at,
            stop: next_stop(stops),
            pause: Pause::Join {
                thread: term_in(room, table, scope, thread),
                limit: term_if(room, table, scope, limit),
            },
        },
        Stmt::Control {
            at,
            control,
            thread,
            scheduler: name,
        } => NamedStmt::Do {
            at: *at,
            action: Action::Control {
                control: *control,
                thread: term_in(room, table, scope, thread),
                scheduler: scheduler(table, scope, name),
            },
        },
        Stmt::Broadcast { at, event, value } => NamedStmt::Do {
            at: *at,
            action: Action::Broadcast {
                event: event_use(table, scope, event),
                value: term_if(room, table, scope, value),
            },
        },
        Stmt::Link {
            at,
            scheduler: name,
        } => NamedStmt::Hold {
            at: *at,
            stop: next_stop(stops),
            pause: Pause::Link(scheduler(table, scope, name)),
        },
        Stmt::Unlink { at } => NamedStmt::Hold {
            at: *at,
            stop: next_stop(stops),
            pause: Pause::Unlink,
        },
        Stmt::Run {
            at,
            called,
            arguments,
        } => NamedStmt::Run {
            at: *at,
            stop: next_stop(stops),
            called: called.at(),
            module: module(table, scope, called),
            arguments: terms(room, table, scope, arguments.as_slice()),
        },
        Stmt::Halt { at } => NamedStmt::Hold {
            at: *at,
            stop: next_stop(stops),
            pause: Pause::Halt,
        },
        Stmt::If {
            at,
            test,
            first,
            second,
        } => NamedStmt::If {
            at: *at,
            test: term_in(room, table, scope, test),
            first: body(room, table, scope, first.as_slice(), stops),
            second: body(room, table, scope, second.as_slice(), stops),
        },
        Stmt::While {
            at,
            test,
            body: inner,
        } => NamedStmt::While {
            at: *at,
            test: term_in(room, table, scope, test),
            body: body(room, table, scope, inner.as_slice(), stops),
        },
        Stmt::Repeat {
            at,
            count,
            body: inner,
        } => NamedStmt::Repeat {
            at: *at,
            count: term_in(room, table, scope, count),
            body: body(room, table, scope, inner.as_slice(), stops),
        },
    }
}

/// The statements of a body, after so many stops of its module.
#[cycle(statement)]
#[tactic(auto, using(loft_tree::proofs::Trees::statements))]
pub fn body(
    room: &mut Room,
    table: &Table,
    scope: Scope,
    statements: &[Stmt],
    stops: &mut u32,
) -> Vec<NamedStmt>
    requires { stops.old + body_stops (statements_of statements.now) < 2 ^ 32 }
    ensures before { room.new.is_whole ≡ true → room.old.is_whole ≡ true }
    ensures body { room.new.is_whole ≡ true → view.statements_of result.items
        ≡ numbers.body_of table.now scope (statements_of statements.now) stops.old }
    ensures counted { stops.new ≡ stops.old + body_stops (statements_of statements.now) }
{
    let mut all = Vec::new(room.alloc);
    for s in statements {
        let numbered = statement(room, table, scope, s, stops);
        room.push_to(&mut all, numbered);
    }
    all
}

/// One statement with numbers in place of its names, its stops numbered from 1 in the order of the
/// text (docs/LANGUAGE.md, "Numbers of names").
///
/// # Errors
///
/// Out of memory.
pub fn number_statement(
    alloc: Global,
    table: &Table,
    scope: Scope,
    s: &Stmt,
) -> Result<NamedStmt, NoMemory>
    requires { stops_in (statement_of s.now) < 2 ^ 32 }
    ensures { IfOk result (λ t. view.statement_of t
        ≡ numbers.statement_of table.now scope (statement_of s.now) 0) }
{
    let mut room = Room::new(alloc);
    let mut stops = 0;
    let numbered = statement(&mut room, table, scope, s, &mut stops);
    room.done(numbered)
}
