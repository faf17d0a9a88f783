//! Where a thread is linked after the statements that it goes through.

ghost use Rattle.std.specs.Prelude.{◌≡◌, ◌≢◌, MatchResult};
ghost use Rattle.loft_tree.specs.NamedView.{action_of, pause_of, statement_of, statements_of};
ghost use Rattle.loft_place.specs.Links.{linked_action, linked_pause, linked_only, left_by_pause, MayStand, MayNotStand, GoesThrough, Goes, FaultThrough, FaultIn};
ghost use Rattle.loft_place.specs.declared.error.PlaceError.TheVariants.{Branches, LoopEnds};

use crate::error::PlaceError;
use crate::needs::{check_names, end_of};
use loft_tree::{Action, Heads, NamedStmt, Pause, Place};

/// The offset of an action's word, if only a linked thread may meet it.
fn linked_action(at: u32, action: &Action) -> Option<u32>
    ensures { result ≡ linked_action at (action_of action.now) }
{
    match action {
        Action::Make { .. }
        | Action::PrintText { .. }
        | Action::PrintValue(_)
        | Action::Generate { .. } => Some(at),
        Action::Assign { .. } | Action::Control { .. } | Action::Broadcast { .. } => None,
    }
}

/// The same of a pause.
fn linked_pause(at: u32, pause: &Pause) -> Option<u32>
    ensures { result ≡ linked_pause at (pause_of pause.now) }
{
    match pause {
        Pause::Link(_) => None,
        Pause::Cooperate { .. }
        | Pause::Await { .. }
        | Pause::Get { .. }
        | Pause::Join { .. }
        | Pause::Unlink
        | Pause::Halt => Some(at),
    }
}

/// The offset of a statement's word, where only a linked thread may meet it.
#[tactic(auto, using(loft_tree::proofs::NamedTrees::named_statements))]
fn linked_only(statement: &NamedStmt) -> Option<u32>
    ensures { result ≡ linked_only (statement_of statement.now) }
{
    match statement {
        NamedStmt::Do { at, action } => linked_action(*at, action),
        NamedStmt::Hold { at, pause, .. } => linked_pause(*at, pause),
        NamedStmt::Run { .. }
        | NamedStmt::If { .. }
        | NamedStmt::While { .. }
        | NamedStmt::Repeat { .. } => None,
    }
}

/// Whether the statement may stand where the thread is linked so.
fn check_statement(heads: &Heads, here: Place, statement: &NamedStmt) -> Result<(), PlaceError>
    ensures { MatchResult result (λ _. MayStand heads.now here (statement_of statement.now))
        (MayNotStand heads.now here (statement_of statement.now)) }
{
    if let (Place::Unlinked, Some(at)) = (here, linked_only(statement)) {
        return Err(PlaceError::Unlinked(at));
    }
    check_names(heads, here, statement)
}

/// Where the branches of an `if` end, if that is one place.
fn check_branches(at: u32, left: Place, right: Place) -> Result<Place, PlaceError>
    ensures { MatchResult result (λ q. (left ≡ q) × (right ≡ q))
        (λ e. (left ≢ right) × (e ≡ Branches at left right)) }
{
    if left == right {
        Ok(left)
    } else {
        Err(PlaceError::Branches { at, left, right })
    }
}

/// Where a loop ends, if that is where it begins.
fn check_loop(at: u32, start: Place, end: Place) -> Result<Place, PlaceError>
    ensures { MatchResult result (λ q. (start ≡ q) × (end ≡ q))
        (λ e. (end ≢ start) × (e ≡ LoopEnds at start end)) }
{
    if start == end {
        Ok(start)
    } else {
        Err(PlaceError::LoopEnds { at, start, end })
    }
}

/// Where a pause leaves a thread that is linked here.
fn left_by_pause(here: Place, pause: &Pause) -> Place
    ensures { result ≡ left_by_pause here (pause_of pause.now) }
{
    match pause {
        Pause::Link(scheduler) => Place::Sched(*scheduler),
        Pause::Unlink => Place::Unlinked,
        Pause::Cooperate { .. }
        | Pause::Await { .. }
        | Pause::Get { .. }
        | Pause::Join { .. }
        | Pause::Halt => here,
    }
}

/// Where a thread is linked after a statement, if it may go through it.
#[cycle(walk)]
#[tactic(auto, using(loft_tree::proofs::NamedTrees::named_statements))]
fn walk_statement(heads: &Heads, here: Place, statement: &NamedStmt) -> Result<Place, PlaceError>
    ensures { MatchResult result (GoesThrough heads.now here (statement_of statement.now))
        (FaultThrough heads.now here (statement_of statement.now)) }
{
    check_statement(heads, here, statement)?;
    match statement {
        NamedStmt::Do { .. } => Ok(here),
        NamedStmt::Hold { pause, .. } => Ok(left_by_pause(here, pause)),
        NamedStmt::Run { module, .. } => Ok(end_of(heads, *module)),
        NamedStmt::If {
            at,
            first,
            second,
            ..
        } => {
            let left = walk_body(heads, here, first.as_slice())?;
            let right = walk_body(heads, here, second.as_slice())?;
            check_branches(*at, left, right)
        }
        NamedStmt::While { at, body, .. } | NamedStmt::Repeat { at, body, .. } => {
            let end = walk_body(heads, here, body.as_slice())?;
            check_loop(*at, here, end)
        }
    }
}

/// Where a thread is linked after a body, if it may go through it.
#[cycle(walk)]
pub fn walk_body(heads: &Heads, begin: Place, body: &[NamedStmt]) -> Result<Place, PlaceError>
    ensures { MatchResult result (Goes heads.now begin (statements_of body.now))
        (FaultIn heads.now begin (statements_of body.now)) }
{
    let mut here = begin;
    for statement in body {
        here = walk_statement(heads, here, statement)?;
    }
    Ok(here)
}
