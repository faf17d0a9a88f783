//! Whether a thread may do an operation where it is linked, and where it is linked after it (docs/CODE.md, "Valid code").

ghost use Rattle.std.specs.Prelude.{◌≡◌, ◌+◌, ◌^◌, ◌<◌, map, slice_get};
ghost use Rattle.std.specs.Option.{option_to_list};
ghost use Rattle.loft_tree.specs.NamedView.{value_of};
ghost use Rattle.loft_tree.specs.Resolved.{exp_if, target_of, target_if};
ghost use Rattle.loft_code.specs.View.{exp_in, exps_in, events_in, action_of, pause_of, operation_of, line_of};
ghost use Rattle.loft_code.specs.Operations.{goes_on_at};
ghost use Rattle.loft_code.specs.Places.{is_linked, is_at, same_place, linked_action, linked_pause, linked_only, begins_at, event_is_here, shared_is_here, exp_is_here, value_is_here, exps_are_here, target_is_here, made_is_here, events_are_here, action_is_here, pause_is_here, operation_is_here, is_allowed, end_of, left_by_pause, place_left, is_elsewhere, leads_elsewhere, has_bad_place};

use crate::op::{Op, is_end};
use crate::raw::CodeLine;
use crate::ways::{Way, goes_on_at};
use loft_base::{EventId, ModuleId, SchedId, SharedId};
use loft_tree::{Action, EventUse, Heads, NamedExpr, Pause, Place, Signature, Target};

/// Whether a thread that is linked so is linked to a scheduler.
fn is_linked(here: Place) -> bool
    ensures { result ≡ is_linked here }
{
    match here {
        Place::Sched(_) => true,
        Place::Unlinked => false,
    }
}

/// Whether a thread that is linked so is linked to this scheduler.
fn is_at(scheduler: SchedId, here: Place) -> bool
    ensures { result ≡ is_at scheduler here }
{
    match here {
        Place::Sched(other) => scheduler.0 == other.0,
        Place::Unlinked => false,
    }
}

/// Whether two places are the same.
fn same_place(place: Place, here: Place) -> bool
    ensures { result ≡ same_place place here }
{
    match place {
        Place::Sched(scheduler) => is_at(scheduler, here),
        Place::Unlinked => !is_linked(here),
    }
}

/// Whether only a linked thread may do the action.
fn linked_action(action: &Action) -> bool
    ensures { result ≡ linked_action (action_of action.now) }
{
    match action {
        Action::Make { .. }
        | Action::PrintText { .. }
        | Action::PrintValue(_)
        | Action::Generate { .. } => true,
        Action::Assign { .. } | Action::Control { .. } | Action::Broadcast { .. } => false,
    }
}

/// Whether only a linked thread may come to the stop.
fn linked_pause(pause: &Pause) -> bool
    ensures { result ≡ linked_pause (pause_of pause.now) }
{
    match pause {
        Pause::Cooperate { .. }
        | Pause::Await { .. }
        | Pause::Get { .. }
        | Pause::Join { .. }
        | Pause::Unlink
        | Pause::Halt => true,
        Pause::Link(_) => false,
    }
}

/// Whether only a linked thread may do the operation.
fn linked_only(op: &Op) -> bool
    ensures { result ≡ linked_only (operation_of op.now) }
{
    match op {
        Op::Do(action) => linked_action(action),
        Op::Hold { pause, .. } => linked_pause(pause),
        Op::Run { .. }
        | Op::Branch { .. }
        | Op::Enter
        | Op::Count(_)
        | Op::Turn { .. }
        | Op::Jump { .. }
        | Op::End => false,
    }
}

/// Whether an event is of the scheduler to which the thread is linked.
fn event_is_here(heads: &Heads, here: Place, event: EventId) -> bool
    ensures { result ≡ event_is_here heads.now here event }
{
    match heads.events.as_slice().get(event.0 as usize) {
        Some(head) => is_at(head.scheduler, here),
        None => false,
    }
}

/// Whether a shared variable is of the scheduler to which the thread is linked.
fn shared_is_here(heads: &Heads, here: Place, shared: SharedId) -> bool
    ensures { result ≡ shared_is_here heads.now here shared }
{
    match heads.shared.as_slice().get(shared.0 as usize) {
        Some(head) => is_at(head.scheduler, here),
        None => false,
    }
}

/// Whether a module begins there.
fn begins_at(heads: &Heads, there: Place, module: ModuleId) -> bool
    ensures { result ≡ begins_at there (slice_get heads.now.modules «module».0) }
{
    match heads.modules.as_slice().get(module.0 as usize) {
        Some(signature) => same_place(signature.begin, there),
        None => false,
    }
}

/// Whether the shared variables in an expression are where the thread is.
fn exp_is_here(heads: &Heads, here: Place, exp: &NamedExpr) -> bool
    ensures { result ≡ exp_is_here heads.now here (exp_in exp.now) }
{
    match exp {
        NamedExpr::Number(_) | NamedExpr::Slot(_) | NamedExpr::Builtin(_) => true,
        NamedExpr::Shared { shared, .. } => shared_is_here(heads, here, *shared),
        NamedExpr::Unary { operand, .. } => exp_is_here(heads, here, operand),
        NamedExpr::Binary { left, right, .. } => {
            exp_is_here(heads, here, left) && exp_is_here(heads, here, right)
        }
    }
}

/// The same of an expression that may be left out.
fn value_is_here(heads: &Heads, here: Place, value: &Option<NamedExpr>) -> bool
    ensures { result ≡ value_is_here heads.now here (exp_if (value_of value.now)) }
{
    match value {
        Some(exp) => exp_is_here(heads, here, exp),
        None => true,
    }
}

/// The same of expressions.
fn exps_are_here(heads: &Heads, here: Place, exps: &[NamedExpr]) -> bool
    ensures { result ≡ exps_are_here heads.now here (exps_in exps.now) }
{
    for exp in exps {
        if !exp_is_here(heads, here, exp) {
            return false;
        }
    }
    true
}

/// Whether a variable that is set is where the thread is.
fn target_is_here(heads: &Heads, here: Place, target: Target) -> bool
    ensures { result ≡ target_is_here heads.now here (target_of target) }
{
    match target {
        Target::Slot(_) => true,
        Target::Shared { shared, .. } => shared_is_here(heads, here, shared),
    }
}

/// The same of a variable that may be left out.
fn made_is_here(heads: &Heads, here: Place, target: Option<Target>) -> bool
    ensures { result ≡ made_is_here heads.now here (target_if target) }
{
    match target {
        Some(target) => target_is_here(heads, here, target),
        None => true,
    }
}

/// Whether all events are where the thread is.
fn events_are_here(heads: &Heads, here: Place, events: &[EventUse]) -> bool
    ensures { result ≡ events_are_here heads.now here (events_in events.now) }
{
    for event in events {
        if !event_is_here(heads, here, event.event) {
            return false;
        }
    }
    true
}

/// Whether all that an action names is where the thread is.
fn action_is_here(heads: &Heads, here: Place, action: &Action) -> bool
    ensures { result ≡ action_is_here heads.now here (action_of action.now) }
{
    match action {
        Action::Assign { target, value } => {
            target_is_here(heads, here, *target) && exp_is_here(heads, here, value)
        }
        Action::Make { target, creation } => {
            made_is_here(heads, here, *target)
                && begins_at(heads, Place::Sched(creation.scheduler), creation.module)
                && exps_are_here(heads, here, creation.arguments.as_slice())
        }
        Action::PrintText { value, .. } | Action::Broadcast { value, .. } => {
            value_is_here(heads, here, value)
        }
        Action::PrintValue(value) => exp_is_here(heads, here, value),
        Action::Generate { event, value } => {
            event_is_here(heads, here, event.event) && value_is_here(heads, here, value)
        }
        Action::Control { thread, .. } => exp_is_here(heads, here, thread),
    }
}

/// Whether all that a stop names is where the thread is.
fn pause_is_here(heads: &Heads, here: Place, pause: &Pause) -> bool
    ensures { result ≡ pause_is_here heads.now here (pause_of pause.now) }
{
    match pause {
        Pause::Cooperate { instants } => value_is_here(heads, here, instants),
        Pause::Await { events, limit } => {
            events_are_here(heads, here, events.as_slice()) && value_is_here(heads, here, limit)
        }
        Pause::Get {
            event,
            index,
            target,
        } => {
            event_is_here(heads, here, event.event)
                && exp_is_here(heads, here, index)
                && target_is_here(heads, here, *target)
        }
        Pause::Join { thread, limit } => {
            exp_is_here(heads, here, thread) && value_is_here(heads, here, limit)
        }
        Pause::Link(_) | Pause::Unlink | Pause::Halt => true,
    }
}

/// Whether all that an operation names is where the thread is.
fn operation_is_here(heads: &Heads, here: Place, op: &Op) -> bool
    ensures { result ≡ operation_is_here heads.now here (operation_of op.now) }
{
    match op {
        Op::Do(action) => action_is_here(heads, here, action),
        Op::Hold { pause, .. } => pause_is_here(heads, here, pause),
        Op::Run {
            module,
            arguments,
            ..
        } => { begins_at(heads, here, *module) && exps_are_here(heads, here, arguments.as_slice()) }
        Op::Branch { test, .. } => exp_is_here(heads, here, test),
        Op::Count(count) => exp_is_here(heads, here, count),
        Op::Enter | Op::Turn { .. } | Op::Jump { .. } | Op::End => true,
    }
}

/// Whether a thread that is linked here may do the operation.
fn is_allowed(heads: &Heads, here: Place, op: &Op) -> bool
    ensures { result ≡ is_allowed heads.now here (operation_of op.now) }
{
    (is_linked(here) || !linked_only(op)) && operation_is_here(heads, here, op)
}

/// Where the threads of a module end.
fn end_of(heads: &Heads, module: ModuleId) -> Place
    ensures { result ≡ end_of (slice_get heads.now.modules «module».0) }
{
    match heads.modules.as_slice().get(module.0 as usize) {
        Some(signature) => signature.end,
        None => Place::Unlinked,
    }
}

/// Where a stop leaves a thread that is linked here.
fn left_by_pause(here: Place, pause: &Pause) -> Place
    ensures { result ≡ left_by_pause here (pause_of pause.now) }
{
    match pause {
        Pause::Link(scheduler) => Place::Sched(*scheduler),
        Pause::Unlink => Place::Unlinked,
        Pause::Cooperate { .. }
        | Pause::Await { .. }
        | Pause::Get { .. }
        | Pause::Join { .. }
        | Pause::Halt => here,
    }
}

/// Where an operation leaves a thread that is linked here.
fn place_left(heads: &Heads, here: Place, op: &Op) -> Place
    ensures { result ≡ place_left heads.now here (operation_of op.now) }
{
    match op {
        Op::Hold { pause, .. } => left_by_pause(here, pause),
        Op::Run { module, .. } => end_of(heads, *module),
        Op::Do(_)
        | Op::Branch { .. }
        | Op::Enter
        | Op::Count(_)
        | Op::Turn { .. }
        | Op::Jump { .. }
        | Op::End => here,
    }
}

/// Whether the operation with this number, if it is there, has another place.
fn is_elsewhere(lines: &[CodeLine], number: u64, there: Place) -> bool
    ensures { result ≡ is_elsewhere there (slice_get (map line_of lines.now) number) }
{
    match lines.get(number as usize) {
        Some(line) => !same_place(there, line.place),
        None => false,
    }
}

/// Whether an operation at which one goes on, if it does, has another place.
fn leads_elsewhere(lines: &[CodeLine], there: Place, way: Option<Way>) -> bool
    ensures { result ≡ leads_elsewhere (map line_of lines.now) there (option_to_list way) }
{
    match way {
        Some(way) => is_elsewhere(lines, way.at, there),
        None => false,
    }
}

/// Whether an operation at which the operation with this number goes on has another place than the one where that leaves
/// the thread.
fn goes_elsewhere(heads: &Heads, lines: &[CodeLine], number: u64, line: &CodeLine) -> bool
    requires { number + 1 < 2 ^ 64 }
    ensures { result ≡ leads_elsewhere (map line_of lines.now)
        (place_left heads.now line.now.place (operation_of line.now.op))
        (goes_on_at (operation_of line.now.op) number line.now.depth) }
{
    let there = place_left(heads, line.place, &line.op);
    let ways = goes_on_at(&line.op, number, 0);
    leads_elsewhere(lines, there, ways.first) || leads_elsewhere(lines, there, ways.second)
}

/// Whether the place of an operation is wrong, or that of one at which it goes on.
pub fn has_bad_place(
    heads: &Heads,
    signature: &Signature,
    lines: &[CodeLine],
    number: u64,
    line: &CodeLine,
) -> bool
    requires { number + 1 < 2 ^ 64 }
    ensures { result
        ≡ has_bad_place heads.now signature.now (map line_of lines.now) number (line_of line.now) }
{
    !is_allowed(heads, line.place, &line.op)
        || (number == 0 && !same_place(signature.begin, line.place))
        || (is_end(&line.op) && !same_place(signature.end, line.place))
        || goes_elsewhere(heads, lines, number, line)
}
