//! Statements, with names in place of numbers.

ghost use Rattle.std.specs.Prelude.{◌≡◌};
ghost use Rattle.loft_tree.specs.Resolved.{target_if};
ghost use Rattle.loft_tree.specs.View.{value_of, creation_of, statement_of};
ghost use Rattle.loft_code.specs.View.{exps_in, events_in, action_of, pause_of};
ghost use Rattle.loft_show.specs.PartReads.{IsOneLine};
ghost use Rattle.loft_listing.specs.Called.{called_creation, called_make, called_action, called_wait, called_pause, called_run};
ghost use Rattle.loft_listing.specs.Making.{Makes};

use crate::{expression, name};
use loft_base::{ModuleId, Room};
use loft_tree::{
    Action, Creation, EventUse, Expr, Heads, NamedCreation, NamedExpr, Pause, Signature, Stmt,
    Target, Text,
};

/// A thread to be made.
fn creation(room: &mut Room, heads: &Heads, module: &Signature, made: &NamedCreation) -> Creation
    ensures { Makes room.old room.new
        (creation_of result
        ≡ called_creation heads.now «module».now made.now.scheduler made.now.«module»
        (exps_in made.now.arguments.items)) }
{
    Creation {
        scheduler: name::scheduler(room, heads, made.scheduler),
        called: name::module(room, heads, made.module),
        arguments: expression::expressions(room, heads, module, made.arguments.as_slice()),
    }
}

/// `create S.m(E, F);` or `t = create S.m(E, F);`
fn make(
    room: &mut Room,
    heads: &Heads,
    module: &Signature,
    target: Option<Target>,
    creation: Creation,
) -> Stmt
    ensures named { Makes room.old room.new
        (statement_of result
        ≡ called_make heads.now «module».now (target_if target) (creation_of creation)) }
    ensures line { IsOneLine (statement_of result) }
{
    match target {
        Some(target) => Stmt::AssignCreate {
            target: expression::target(room, heads, module, target),
            at: 0,
            creation,
        },
        None => Stmt::Create { at: 0, creation },
    }
}

/// An action.
pub fn action(room: &mut Room, heads: &Heads, module: &Signature, action: &Action) -> Stmt
    ensures named { Makes room.old room.new
        (statement_of result
        ≡ called_action heads.now «module».now (action_of action.now)) }
    ensures line { IsOneLine (statement_of result) }
{
    match action {
        Action::Assign { target, value } => Stmt::Assign {
            target: expression::target(room, heads, module, *target),
            value: expression::expression(room, heads, module, value),
        },
        Action::Make {
            target,
            creation: made,
        } => {
            let creation = creation(room, heads, module, made);
            make(room, heads, module, *target, creation)
        }
        Action::PrintText { text, value } => Stmt::PrintText {
            at: 0,
            text: Text::new(room.slice(text.bytes()).into_vec()),
            value: expression::value(room, heads, module, value),
        },
        Action::PrintValue(value) => Stmt::PrintValue {
            at: 0,
            value: expression::expression(room, heads, module, value),
        },
        Action::Generate { event, value } => Stmt::Generate {
            at: 0,
            event: name::event(room, heads, event.event),
            value: expression::value(room, heads, module, value),
        },
        Action::Control {
            control,
            thread,
            scheduler,
        } => Stmt::Control {
            at: 0,
            control: *control,
            thread: expression::expression(room, heads, module, thread),
            scheduler: name::scheduler(room, heads, *scheduler),
        },
        Action::Broadcast { event, value } => Stmt::Broadcast {
            at: 0,
            event: name::event(room, heads, event.event),
            value: expression::value(room, heads, module, value),
        },
    }
}

/// A wait: `await` for one event, else `select`.
fn wait(room: &mut Room, heads: &Heads, events: &[EventUse], limit: Option<Expr>) -> Stmt
    ensures named { Makes room.old room.new
        (statement_of result ≡ called_wait heads.now (events_in events.now) (value_of limit)) }
    ensures line { IsOneLine (statement_of result) }
{
    match events {
        [event] => Stmt::Await {
            at: 0,
            event: name::event(room, heads, event.event),
            limit,
        },
        _ => Stmt::Select {
            at: 0,
            events: name::events(room, heads, events),
            limit,
        },
    }
}

/// A stop but for `run`.
pub fn pause(room: &mut Room, heads: &Heads, module: &Signature, pause: &Pause) -> Stmt
    ensures named { Makes room.old room.new
        (statement_of result
        ≡ called_pause heads.now «module».now (pause_of pause.now)) }
    ensures line { IsOneLine (statement_of result) }
{
    match pause {
        Pause::Cooperate { instants } => Stmt::Cooperate {
            at: 0,
            instants: expression::value(room, heads, module, instants),
        },
        Pause::Await { events, limit } => {
            let limit = expression::value(room, heads, module, limit);
            wait(room, heads, events.as_slice(), limit)
        }
        Pause::Get {
            event,
            index,
            target,
        } => Stmt::Get {
            at: 0,
            event: name::event(room, heads, event.event),
            index: expression::expression(room, heads, module, index),
            target: expression::target(room, heads, module, *target),
        },
        Pause::Join { thread, limit } => Stmt::Join {
            at: 0,
            thread: expression::expression(room, heads, module, thread),
            limit: expression::value(room, heads, module, limit),
        },
        Pause::Link(scheduler) => Stmt::Link {
            at: 0,
            scheduler: name::scheduler(room, heads, *scheduler),
        },
        Pause::Unlink => Stmt::Unlink { at: 0 },
        Pause::Halt => Stmt::Halt { at: 0 },
    }
}

/// `run m(E, F);`
pub fn call(
    room: &mut Room,
    heads: &Heads,
    module: &Signature,
    called: ModuleId,
    arguments: &[NamedExpr],
) -> Stmt
    ensures named { Makes room.old room.new
        (statement_of result
        ≡ called_run heads.now «module».now called (exps_in arguments.now)) }
    ensures line { IsOneLine (statement_of result) }
{
    Stmt::Run {
        at: 0,
        called: name::module(room, heads, called),
        arguments: expression::expressions(room, heads, module, arguments),
    }
}
