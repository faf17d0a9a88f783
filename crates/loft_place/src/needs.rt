//! What statements name, and whether a thread is linked where that is.

ghost use Rattle.std.specs.Prelude.{◌≡◌, [], ◌∷◌, ◌++◌, map, false, slice_get};
ghost use Rattle.loft_tree.specs.NamedView.{term_of, value_of, event_use_of, creation_of, action_of, pause_of, statement_of};
ghost use Rattle.loft_place.specs.Links.{event_home, shared_home, begin_of, end_of, IsAnswer, shared_need, event_need, run_need, creation_need, term_needs, value_needs, terms_needs, target_needs, made_needs, events_needs, creation_needs, action_needs, pause_needs, needs_of};

use crate::error::PlaceError;
use loft_base::{EventId, ModuleId, SchedId, SharedId};
use loft_tree::{
    Action, EventUse, Heads, NamedCreation, NamedExpr, NamedStmt, Pause, Place, Target,
};

/// Where an event is.
fn event_home(heads: &Heads, event: EventId) -> Place
    ensures { result ≡ event_home (slice_get heads.now.events event.0) }
{
    match heads.events.as_slice().get(event.0 as usize) {
        Some(head) => Place::Sched(head.scheduler),
        None => Place::Unlinked,
    }
}

/// Where a shared variable is.
fn shared_home(heads: &Heads, shared: SharedId) -> Place
    ensures { result ≡ shared_home (slice_get heads.now.shared shared.0) }
{
    match heads.shared.as_slice().get(shared.0 as usize) {
        Some(head) => Place::Sched(head.scheduler),
        None => Place::Unlinked,
    }
}

/// Where the threads of a module begin.
fn begin_of(heads: &Heads, module: ModuleId) -> Place
    ensures { result ≡ begin_of (slice_get heads.now.modules «module».0) }
{
    match heads.modules.as_slice().get(module.0 as usize) {
        Some(signature) => signature.begin,
        None => Place::Unlinked,
    }
}

/// Where the threads of a module end.
pub fn end_of(heads: &Heads, module: ModuleId) -> Place
    ensures { result ≡ end_of (slice_get heads.now.modules «module».0) }
{
    match heads.modules.as_slice().get(module.0 as usize) {
        Some(signature) => signature.end,
        None => Place::Unlinked,
    }
}

/// Whether what is named in the text has the place that it needs.
fn check_place(at: u32, needs: Place, has: Place) -> Result<(), PlaceError>
    ensures { IsAnswer (record { at = at; needs = needs; has = has; is_shared = false } ∷ []) result }
{
    if needs == has {
        Ok(())
    } else {
        Err(PlaceError::NotHere { at, needs, has })
    }
}

/// Whether a shared variable is where the thread is.
fn check_shared(heads: &Heads, here: Place, at: u32, shared: SharedId) -> Result<(), PlaceError>
    ensures { IsAnswer (shared_need heads.now here at shared ∷ []) result }
{
    match here {
        Place::Sched(_) => check_place(at, shared_home(heads, shared), here),
        Place::Unlinked => Err(PlaceError::Unlinked(at)),
    }
}

/// Whether an event is where the thread is.
fn check_event(heads: &Heads, here: Place, event: EventUse) -> Result<(), PlaceError>
    ensures { IsAnswer (event_need heads.now here (event_use_of event) ∷ []) result }
{
    check_place(event.at, event_home(heads, event.event), here)
}

/// Whether the module that is run begins where the thread is.
fn check_run(heads: &Heads, here: Place, called: u32, module: ModuleId) -> Result<(), PlaceError>
    ensures { IsAnswer (run_need heads.now here called «module» ∷ []) result }
{
    check_place(called, begin_of(heads, module), here)
}

/// Whether a module begins in the scheduler where a thread of it is made, whose name stands at this offset.
pub fn check_begin(
    heads: &Heads,
    at: u32,
    scheduler: SchedId,
    module: ModuleId,
) -> Result<(), PlaceError>
    ensures { IsAnswer (creation_need heads.now at scheduler «module» ∷ []) result }
{
    check_place(at, begin_of(heads, module), Place::Sched(scheduler))
}

/// Whether the shared variables in an expression are where the thread is.
#[tactic(auto, using(crate::proofs::NeedLemmas::needs))]
fn check_term(heads: &Heads, here: Place, term: &NamedExpr) -> Result<(), PlaceError>
    ensures { IsAnswer (term_needs heads.now here (term_of term.now)) result }
{
    match term {
        NamedExpr::Number(_) | NamedExpr::Slot(_) | NamedExpr::Builtin(_) => Ok(()),
        NamedExpr::Shared { at, shared } => check_shared(heads, here, *at, *shared),
        NamedExpr::Unary { operand, .. } => check_term(heads, here, operand),
        NamedExpr::Binary { left, right, .. } => {
            check_term(heads, here, left)?;
            check_term(heads, here, right)
        }
    }
}

/// The same of an expression that may be left out.
#[tactic(auto, using(crate::proofs::NeedLemmas::needs))]
fn check_value(heads: &Heads, here: Place, value: &Option<NamedExpr>) -> Result<(), PlaceError>
    ensures { IsAnswer (value_needs heads.now here (value_of value.now)) result }
{
    match value {
        Some(term) => check_term(heads, here, term),
        None => Ok(()),
    }
}

/// The same of expressions.
fn check_terms(heads: &Heads, here: Place, terms: &[NamedExpr]) -> Result<(), PlaceError>
    ensures { IsAnswer (terms_needs heads.now here (map term_of terms.now)) result }
{
    for term in terms {
        check_term(heads, here, term)?;
    }
    Ok(())
}

/// Whether a variable that is set is where the thread is.
fn check_target(heads: &Heads, here: Place, target: Target) -> Result<(), PlaceError>
    ensures { IsAnswer (target_needs heads.now here target) result }
{
    match target {
        Target::Slot(_) => Ok(()),
        Target::Shared { at, shared } => check_shared(heads, here, at, shared),
    }
}

/// The same of the variable that a thread which is made is set to, if there is one.
fn check_made(heads: &Heads, here: Place, target: Option<Target>) -> Result<(), PlaceError>
    ensures { IsAnswer (made_needs heads.now here target) result }
{
    match target {
        Some(target) => check_target(heads, here, target),
        None => Ok(()),
    }
}

/// Whether all events are where the thread is.
fn check_events(heads: &Heads, here: Place, events: &[EventUse]) -> Result<(), PlaceError>
    ensures { IsAnswer (events_needs heads.now here (map event_use_of events.now)) result }
{
    for event in events {
        check_event(heads, here, *event)?;
    }
    Ok(())
}

/// Whether a thread may be made so: its module begins in its scheduler, and the shared variables in its arguments are
/// where the thread is that makes it.
#[tactic(auto, using(crate::proofs::NeedLemmas::needs))]
fn check_creation(heads: &Heads, here: Place, creation: &NamedCreation) -> Result<(), PlaceError>
    ensures { IsAnswer (creation_needs heads.now here (creation_of creation.now)) result }
{
    check_begin(heads, creation.at, creation.scheduler, creation.module)?;
    check_terms(heads, here, creation.arguments.as_slice())
}

/// `x = E;`
#[tactic(auto, using(crate::proofs::NeedLemmas::needs))]
fn check_assign(
    heads: &Heads,
    here: Place,
    target: Target,
    value: &NamedExpr,
) -> Result<(), PlaceError>
    ensures { IsAnswer (target_needs heads.now here target ++ term_needs heads.now here (term_of value.now)) result }
{
    check_target(heads, here, target)?;
    check_term(heads, here, value)
}

/// `create S.m(E, F);` and `t = create S.m(E, F);`
#[tactic(auto, using(crate::proofs::NeedLemmas::needs))]
fn check_make(
    heads: &Heads,
    here: Place,
    target: Option<Target>,
    creation: &NamedCreation,
) -> Result<(), PlaceError>
    ensures { IsAnswer (made_needs heads.now here target ++ creation_needs heads.now here (creation_of creation.now)) result }
{
    check_made(heads, here, target)?;
    check_creation(heads, here, creation)
}

/// `generate e, E;`, where the expression may be left out.
#[tactic(auto, using(crate::proofs::NeedLemmas::needs))]
fn check_generate(
    heads: &Heads,
    here: Place,
    event: EventUse,
    value: &Option<NamedExpr>,
) -> Result<(), PlaceError>
    ensures { IsAnswer (event_need heads.now here (event_use_of event) ∷ value_needs heads.now here (value_of value.now)) result }
{
    check_event(heads, here, event)?;
    check_value(heads, here, value)
}

/// `await e for E;` and `select e, g for E;`, where the limit may be left out.
#[tactic(auto, using(crate::proofs::NeedLemmas::needs))]
fn check_await(
    heads: &Heads,
    here: Place,
    events: &[EventUse],
    limit: &Option<NamedExpr>,
) -> Result<(), PlaceError>
    ensures { IsAnswer (events_needs heads.now here (map event_use_of events.now) ++ value_needs heads.now here (value_of limit.now)) result }
{
    check_events(heads, here, events)?;
    check_value(heads, here, limit)
}

/// `get e at E into x;`
#[tactic(auto, using(crate::proofs::NeedLemmas::needs))]
fn check_get(
    heads: &Heads,
    here: Place,
    event: EventUse,
    index: &NamedExpr,
    target: Target,
) -> Result<(), PlaceError>
    ensures { IsAnswer (event_need heads.now here (event_use_of event) ∷ (term_needs heads.now here (term_of index.now) ++ target_needs heads.now here target)) result }
{
    check_event(heads, here, event)?;
    check_term(heads, here, index)?;
    check_target(heads, here, target)
}

/// `join E for F;`, where the limit may be left out.
#[tactic(auto, using(crate::proofs::NeedLemmas::needs))]
fn check_join(
    heads: &Heads,
    here: Place,
    thread: &NamedExpr,
    limit: &Option<NamedExpr>,
) -> Result<(), PlaceError>
    ensures { IsAnswer (term_needs heads.now here (term_of thread.now) ++ value_needs heads.now here (value_of limit.now)) result }
{
    check_term(heads, here, thread)?;
    check_value(heads, here, limit)
}

/// `run m(E, F);`
#[tactic(auto, using(crate::proofs::NeedLemmas::needs))]
fn check_call(
    heads: &Heads,
    here: Place,
    called: u32,
    module: ModuleId,
    arguments: &[NamedExpr],
) -> Result<(), PlaceError>
    ensures { IsAnswer (run_need heads.now here called «module» ∷ terms_needs heads.now here (map term_of arguments.now)) result }
{
    check_run(heads, here, called, module)?;
    check_terms(heads, here, arguments)
}

/// Whether all that an action names is where the thread is.
#[tactic(auto, using(crate::proofs::NeedLemmas::needs))]
fn check_action(heads: &Heads, here: Place, action: &Action) -> Result<(), PlaceError>
    ensures { IsAnswer (action_needs heads.now here (action_of action.now)) result }
{
    match action {
        Action::Assign { target, value } => check_assign(heads, here, *target, value),
        Action::Make { target, creation } => check_make(heads, here, *target, creation),
        Action::PrintText { value, .. } | Action::Broadcast { value, .. } => check_value(
            heads, here, value,
        ),
        Action::PrintValue(value) => check_term(heads, here, value),
        Action::Generate { event, value } => check_generate(heads, here, *event, value),
        Action::Control { thread, .. } => check_term(heads, here, thread),
    }
}

/// The same of a pause.
#[tactic(auto, using(crate::proofs::NeedLemmas::needs))]
fn check_pause(heads: &Heads, here: Place, pause: &Pause) -> Result<(), PlaceError>
    ensures { IsAnswer (pause_needs heads.now here (pause_of pause.now)) result }
{
    match pause {
        Pause::Cooperate { instants } => check_value(heads, here, instants),
        Pause::Await { events, limit } => check_await(heads, here, events.as_slice(), limit),
        Pause::Get {
            event,
            index,
            target,
        } => check_get(heads, here, *event, index, *target),
        Pause::Join { thread, limit } => check_join(heads, here, thread, limit),
        Pause::Link(_) | Pause::Unlink | Pause::Halt => Ok(()),
    }
}

/// The same of a statement, but for its bodies.
#[tactic(auto, using(crate::proofs::NeedLemmas::needs, loft_tree::proofs::NamedTrees::named_statements))]
pub fn check_names(heads: &Heads, here: Place, statement: &NamedStmt) -> Result<(), PlaceError>
    ensures { IsAnswer (needs_of heads.now here (statement_of statement.now)) result }
{
    match statement {
        NamedStmt::Do { action, .. } => check_action(heads, here, action),
        NamedStmt::Hold { pause, .. } => check_pause(heads, here, pause),
        NamedStmt::Run {
            called,
            module,
            arguments,
            ..
        } => check_call(heads, here, *called, *module, arguments.as_slice()),
        NamedStmt::If { test, .. } | NamedStmt::While { test, .. } => check_term(heads, here, test),
        NamedStmt::Repeat { count, .. } => check_term(heads, here, count),
    }
}
