//! Waits that agree with the stops at which threads stand.

ghost use Rattle.std.specs.Prelude.{◌≡◌, ◌↔◌, IsTrue, Option, map};
ghost use Rattle.loft_orders.specs.declared.thread.Wait.TheVariants as wait_for;
ghost use Rattle.loft_tree.specs.NamedView.{event_use_of, value_of};
ghost use Rattle.loft_tree.specs.Resolved.{Exp, Target, Cooperate, Await, Get, Join, events_of, exp_if};
ghost use Rattle.loft_sense.specs.Stands.{LeftAgrees, PauseAgrees, WaitAgrees};
ghost use Rattle.loft_standing.specs.Stops.{pause_from, kind_from};

use crate::stop::Kind;
use loft_base::EventId;
use loft_orders::Wait;
use loft_tree::{EventUse, NamedExpr, Pause};

/// Whether a number is left exactly where the statement gives a limit, and isn't negative.
fn left_agrees(limit: &Option<NamedExpr>, left: Option<i64>) -> bool
    ensures { IsTrue result ↔ LeftAgrees (exp_if (value_of limit.now)) left }
{
    match (limit, left) {
        (None, None) => true,
        (Some(_), Some(left)) => left >= 0,
        (None, Some(_)) | (Some(_), None) => false,
    }
}

/// Whether the events are those that the statement names, in its order.
fn are_events(uses: &[EventUse], events: &[EventId]) -> bool
    ensures { IsTrue result ↔ (events.now ≡ events_of (map event_use_of uses.now)) }
{
    match uses {
        [] => match events {
            [] => true,
            [_, ..] => false,
        },
        [named, uses @ ..] => match events {
            [] => false,
            [event, events @ ..] => named.event == *event && are_events(uses, events),
        },
    }
}

/// Whether a thread that stands at a `cooperate` may wait so.
fn cooperate_agrees(wait: &Wait) -> bool
    ensures { (instants : Option Exp) → IsTrue result ↔ PauseAgrees (Cooperate instants) wait.now }
{
    match wait {
        Wait::Coop(left) => *left >= 0,
        Wait::New
        | Wait::Events { .. }
        | Wait::Index { .. }
        | Wait::Next
        | Wait::Join { .. }
        | Wait::Halt => false,
    }
}

/// Whether a thread that waits for one of these events may wait so.
fn await_agrees(uses: &[EventUse], limit: &Option<NamedExpr>, wait: &Wait) -> bool
    ensures { IsTrue result ↔ PauseAgrees (Await (events_of (map event_use_of uses.now)) (exp_if (value_of limit.now))) wait.now }
{
    match wait {
        Wait::Events { events, left } => {
            are_events(uses, events.as_slice()) && left_agrees(limit, *left)
        }
        Wait::New
        | Wait::Coop(_)
        | Wait::Index { .. }
        | Wait::Next
        | Wait::Join { .. }
        | Wait::Halt => false,
    }
}

/// Whether a thread that stands at a `get` of this event may wait so.
fn get_agrees(event: EventId, wait: &Wait) -> bool
    ensures { (index : Exp) (target : Target) → IsTrue result ↔ PauseAgrees (Get event index target) wait.now }
{
    match wait {
        Wait::Next => true,
        Wait::Index { event: of, .. } => *of == event,
        Wait::New | Wait::Coop(_) | Wait::Events { .. } | Wait::Join { .. } | Wait::Halt => false,
    }
}

/// Whether a thread that stands at a `join` may wait so.
fn join_agrees(limit: &Option<NamedExpr>, wait: &Wait) -> bool
    ensures { (thread : Exp) → IsTrue result ↔ PauseAgrees (Join thread (exp_if (value_of limit.now))) wait.now }
{
    match wait {
        Wait::Join { left, .. } => left_agrees(limit, *left),
        Wait::New
        | Wait::Coop(_)
        | Wait::Events { .. }
        | Wait::Index { .. }
        | Wait::Next
        | Wait::Halt => false,
    }
}

/// Whether nothing is waited for.
pub fn is_new(wait: &Wait) -> bool
    ensures { IsTrue result ↔ (wait.now ≡ wait_for.New) }
{
    match wait {
        Wait::New => true,
        Wait::Coop(_)
        | Wait::Events { .. }
        | Wait::Index { .. }
        | Wait::Next
        | Wait::Join { .. }
        | Wait::Halt => false,
    }
}

/// Whether it is waited for ever.
fn is_halt(wait: &Wait) -> bool
    ensures { IsTrue result ↔ (wait.now ≡ wait_for.Halt) }
{
    match wait {
        Wait::Halt => true,
        Wait::New
        | Wait::Coop(_)
        | Wait::Events { .. }
        | Wait::Index { .. }
        | Wait::Next
        | Wait::Join { .. } => false,
    }
}

/// Whether a thread that stands at this pause may wait so.
fn pause_agrees(pause: &Pause, wait: &Wait) -> bool
    ensures { IsTrue result ↔ PauseAgrees (pause_from pause.now) wait.now }
{
    match pause {
        Pause::Cooperate { .. } => cooperate_agrees(wait),
        Pause::Await { events, limit } => await_agrees(events.as_slice(), limit, wait),
        Pause::Get { event, .. } => get_agrees(event.event, wait),
        Pause::Join { limit, .. } => join_agrees(limit, wait),
        Pause::Link(_) | Pause::Unlink => is_new(wait),
        Pause::Halt => is_halt(wait),
    }
}

/// Whether a thread that stands at a stop of this kind may wait so (docs/SEMANTICS.md, "Stands").
pub fn wait_agrees(stop: Kind<'_>, wait: &Wait) -> bool
    ensures { IsTrue result ↔ WaitAgrees (kind_from stop.entry) wait.now }
{
    match stop {
        Kind::Begin => is_new(wait),
        Kind::Pause(pause) => pause_agrees(pause, wait),
        Kind::Run(_) => false,
    }
}
