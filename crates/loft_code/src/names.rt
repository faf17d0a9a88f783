//! Whether all that an operation names is declared (docs/CODE.md, "Valid code").

ghost use Rattle.std.specs.Prelude.{◌≡◌};
ghost use Rattle.loft_tree.specs.NamedView.{value_of};
ghost use Rattle.loft_tree.specs.NamedFits.{slots_of};
ghost use Rattle.loft_tree.specs.Resolved.{exp_if, target_of, target_if};
ghost use Rattle.loft_code.specs.View.{exp_in, exps_in, events_in, action_of, pause_of, operation_of, line_of};
ghost use Rattle.loft_code.specs.Names.{has_scheduler, has_event, has_shared, has_module, has_place, has_events, has_choices, exp_has, value_has, exps_have, target_has, made_has, action_has, pause_has, operation_has, has_bad_name};

use crate::op::Op;
use crate::raw::CodeLine;
use crate::slots::slot_kind;
use loft_base::{EventId, ModuleId, SchedId, SharedId};
use loft_tree::limits::MAX_CHOICES;
use loft_tree::{Action, EventUse, Heads, NamedExpr, Pause, Place, Signature, Target};

/// Whether a scheduler is declared.
fn has_scheduler(heads: &Heads, scheduler: SchedId) -> bool
    ensures { result ≡ has_scheduler heads.now scheduler }
{
    (scheduler.0 as usize) < heads.schedulers.len()
}

/// Whether an event is declared.
fn has_event(heads: &Heads, event: EventId) -> bool
    ensures { result ≡ has_event heads.now event }
{
    (event.0 as usize) < heads.events.len()
}

/// Whether a shared variable is declared.
fn has_shared(heads: &Heads, shared: SharedId) -> bool
    ensures { result ≡ has_shared heads.now shared }
{
    (shared.0 as usize) < heads.shared.len()
}

/// Whether a module is declared.
fn has_module(heads: &Heads, module: ModuleId) -> bool
    ensures { result ≡ has_module heads.now «module» }
{
    (module.0 as usize) < heads.modules.len()
}

/// Whether a place is declared.
fn has_place(heads: &Heads, place: Place) -> bool
    ensures { result ≡ has_place heads.now place }
{
    match place {
        Place::Sched(scheduler) => has_scheduler(heads, scheduler),
        Place::Unlinked => true,
    }
}

/// Whether all events are declared.
fn has_events(heads: &Heads, events: &[EventUse]) -> bool
    ensures { result ≡ has_events heads.now (events_in events.now) }
{
    for event in events {
        if !has_event(heads, event.event) {
            return false;
        }
    }
    true
}

/// The same of the events of a wait, of which there may be 1 to 8.
fn has_choices(heads: &Heads, events: &[EventUse]) -> bool
    ensures { result ≡ has_choices heads.now (events_in events.now) }
{
    1 <= events.len() && events.len() <= MAX_CHOICES && has_events(heads, events)
}

/// Whether all that an expression names is declared.
fn exp_has(heads: &Heads, signature: &Signature, exp: &NamedExpr) -> bool
    ensures { result ≡ exp_has heads.now (slots_of signature.now) (exp_in exp.now) }
{
    match exp {
        NamedExpr::Number(_) | NamedExpr::Builtin(_) => true,
        NamedExpr::Slot(slot) => slot_kind(signature, *slot).is_some(),
        NamedExpr::Shared { shared, .. } => has_shared(heads, *shared),
        NamedExpr::Unary { operand, .. } => exp_has(heads, signature, operand),
        NamedExpr::Binary { left, right, .. } => {
            exp_has(heads, signature, left) && exp_has(heads, signature, right)
        }
    }
}

/// The same of an expression that may be left out.
fn value_has(heads: &Heads, signature: &Signature, value: &Option<NamedExpr>) -> bool
    ensures { result ≡ value_has heads.now (slots_of signature.now) (exp_if (value_of value.now)) }
{
    match value {
        Some(exp) => exp_has(heads, signature, exp),
        None => true,
    }
}

/// The same of expressions.
fn exps_have(heads: &Heads, signature: &Signature, exps: &[NamedExpr]) -> bool
    ensures { result ≡ exps_have heads.now (slots_of signature.now) (exps_in exps.now) }
{
    for exp in exps {
        if !exp_has(heads, signature, exp) {
            return false;
        }
    }
    true
}

/// Whether a variable that is set is declared.
fn target_has(heads: &Heads, signature: &Signature, target: Target) -> bool
    ensures { result ≡ target_has heads.now (slots_of signature.now) (target_of target) }
{
    match target {
        Target::Slot(slot) => slot_kind(signature, slot).is_some(),
        Target::Shared { shared, .. } => has_shared(heads, shared),
    }
}

/// The same of a variable that may be left out.
fn made_has(heads: &Heads, signature: &Signature, target: Option<Target>) -> bool
    ensures { result ≡ made_has heads.now (slots_of signature.now) (target_if target) }
{
    match target {
        Some(target) => target_has(heads, signature, target),
        None => true,
    }
}

/// Whether all that an action names is declared.
fn action_has(heads: &Heads, signature: &Signature, action: &Action) -> bool
    ensures { result ≡ action_has heads.now (slots_of signature.now) (action_of action.now) }
{
    match action {
        Action::Assign { target, value } => {
            target_has(heads, signature, *target) && exp_has(heads, signature, value)
        }
        Action::Make { target, creation } => {
            made_has(heads, signature, *target)
                && has_scheduler(heads, creation.scheduler)
                && has_module(heads, creation.module)
                && exps_have(heads, signature, creation.arguments.as_slice())
        }
        Action::PrintText { value, .. } => value_has(heads, signature, value),
        Action::PrintValue(value) => exp_has(heads, signature, value),
        Action::Generate { event, value } | Action::Broadcast { event, value } => {
            has_event(heads, event.event) && value_has(heads, signature, value)
        }
        Action::Control {
            thread,
            scheduler,
            ..
        } => exp_has(heads, signature, thread) && has_scheduler(heads, *scheduler),
    }
}

/// Whether all that a stop names is declared.
fn pause_has(heads: &Heads, signature: &Signature, pause: &Pause) -> bool
    ensures { result ≡ pause_has heads.now (slots_of signature.now) (pause_of pause.now) }
{
    match pause {
        Pause::Cooperate { instants } => value_has(heads, signature, instants),
        Pause::Await { events, limit } => {
            has_choices(heads, events.as_slice()) && value_has(heads, signature, limit)
        }
        Pause::Get {
            event,
            index,
            target,
        } => {
            has_event(heads, event.event)
                && exp_has(heads, signature, index)
                && target_has(heads, signature, *target)
        }
        Pause::Join { thread, limit } => {
            exp_has(heads, signature, thread) && value_has(heads, signature, limit)
        }
        Pause::Link(scheduler) => has_scheduler(heads, *scheduler),
        Pause::Unlink | Pause::Halt => true,
    }
}

/// Whether all that an operation names is declared.
fn operation_has(heads: &Heads, signature: &Signature, op: &Op) -> bool
    ensures { result ≡ operation_has heads.now (slots_of signature.now) (operation_of op.now) }
{
    match op {
        Op::Do(action) => action_has(heads, signature, action),
        Op::Hold { pause, .. } => pause_has(heads, signature, pause),
        Op::Run {
            module,
            arguments,
            ..
        } => has_module(heads, *module) && exps_have(heads, signature, arguments.as_slice()),
        Op::Branch { test, .. } => exp_has(heads, signature, test),
        Op::Count(count) => exp_has(heads, signature, count),
        Op::Enter | Op::Turn { .. } | Op::Jump { .. } | Op::End => true,
    }
}

/// Whether something that an operation or its place names isn't declared, or it waits for too few or too many events.
pub fn has_bad_name(heads: &Heads, signature: &Signature, line: &CodeLine) -> bool
    ensures { result ≡ has_bad_name heads.now (slots_of signature.now) (line_of line.now) }
{
    !(has_place(heads, line.place) && operation_has(heads, signature, &line.op))
}
