//! What stands first in a body: a `run` of a marked module, a loop that needn't end.

ghost use Rattle.std.specs.Prelude.{is_none, ◌≡◌, ◌||◌, Option, Some, None, is_some};
ghost use Rattle.loft_tree.specs.NamedView.{term_of, statement_of, statements_of};
ghost use Rattle.loft_tree.specs.Resolved.{exp_of, body_of};
ghost use Rattle.loft_budget.specs.Steps.{literal, body_steps};
ghost use Rattle.loft_body.specs.Capped.{entry, TableIsSmall};
ghost use Rattle.loft_budget.specs.Verdicts.{runs_of, runs_in, endless_if, endless_of, endless_in};
ghost use Rattle.loft_body.specs.First.{mark_of, is_it, has_mark, first_marked, first_of};

use crate::walk::{bare_number, body_steps};
use loft_base::ModuleId;
use loft_budget::Steps;
use loft_tree::{NamedExpr, NamedStmt};

/// Whether the module is marked.
fn is_marked(marks: &[bool], m: ModuleId) -> bool
    ensures { result ≡ mark_of marks.now m }
{
    match marks.get(m.0 as usize) {
        Some(mark) => *mark,
        None => false,
    }
}

/// Whether it is this module, where there is one.
fn is_it(also: Option<ModuleId>, m: ModuleId) -> bool
    ensures { result ≡ is_it also m }
{
    match also {
        Some(q) => m.0 == q.0,
        None => false,
    }
}

/// Whether the module is marked, or isn't, as it is wanted; or is this one.
pub fn has_mark(marks: &[bool], wanted: bool, also: Option<ModuleId>, m: ModuleId) -> bool
    ensures { result ≡ has_mark marks.now wanted also m }
{
    if wanted {
        is_marked(marks, m) || is_it(also, m)
    } else {
        !is_marked(marks, m) || is_it(also, m)
    }
}

/// The offset of the first `run` of a module that is so marked in a statement.
#[cycle(first_run)]
#[tactic(auto, using(loft_tree::proofs::NamedTrees::named_statements))]
fn first_run_of(
    marks: &[bool],
    wanted: bool,
    also: Option<ModuleId>,
    statement: &NamedStmt,
) -> Option<u32>
    ensures { result ≡ first_marked (has_mark marks.now wanted also) (runs_of (statement_of statement.now)) }
{
    match statement {
        NamedStmt::Do { .. } | NamedStmt::Hold { .. } => None,
        NamedStmt::Run { at, module, .. } => {
            if has_mark(marks, wanted, also, *module) {
                Some(*at)
            } else {
                None
            }
        }
        NamedStmt::If { first, second, .. } => match first_run(
            marks,
            wanted,
            also,
            first.as_slice(),
        ) {
            Some(at) => Some(at),
            None => first_run(marks, wanted, also, second.as_slice()),
        },
        NamedStmt::While { body, .. } | NamedStmt::Repeat { body, .. } => {
            first_run(marks, wanted, also, body.as_slice())
        }
    }
}

/// The offset of the first `run` of a module that is so marked in a body.
#[cycle(first_run)]
pub fn first_run(
    marks: &[bool],
    wanted: bool,
    also: Option<ModuleId>,
    body: &[NamedStmt],
) -> Option<u32>
    ensures { result ≡ first_marked (has_mark marks.now wanted also) (runs_in (statements_of body.now)) }
{
    for statement in body {
        match first_run_of(marks, wanted, also, statement) {
            Some(at) => return Some(at),
            None => {}
        }
    }
    None
}

/// The word of a loop, where it may turn for ever without a sure statement.
fn endless_at(ends: bool, at: u32) -> Option<u32>
    ensures { result ≡ first_of (endless_if ends at) }
{
    if ends { None } else { Some(at) }
}

/// Whether there is no way from the start of the body to its end without a sure statement.
fn is_sure(table: &[Option<Steps>], body: &[NamedStmt]) -> bool
    requires { TableIsSmall table.now }
    ensures { result ≡ is_none (body_steps (entry table.now) (body_of (statements_of body.now))).through }
{
    body_steps(table, body).through.is_none()
}

/// Whether a `repeat` makes no more turns without a sure statement than a bare number.
fn repeat_ends(table: &[Option<Steps>], count: &NamedExpr, body: &[NamedStmt]) -> bool
    requires { TableIsSmall table.now }
    ensures { result ≡ (is_none (body_steps (entry table.now) (body_of (statements_of body.now))).through
        || is_some (literal (exp_of (term_of count.now)))) }
{
    match bare_number(count) {
        Some(_) => true,
        None => is_sure(table, body),
    }
}

/// Of the loops of a statement that may turn so, the word of the one that ends first.
#[cycle(first_endless)]
#[tactic(auto, using(loft_tree::proofs::NamedTrees::named_statements))]
fn first_endless_of(table: &[Option<Steps>], statement: &NamedStmt) -> Option<u32>
    requires { TableIsSmall table.now }
    ensures { result ≡ first_of (endless_of (entry table.now) (statement_of statement.now)) }
{
    match statement {
        NamedStmt::Do { .. } | NamedStmt::Hold { .. } | NamedStmt::Run { .. } => None,
        NamedStmt::If { first, second, .. } => match first_endless(table, first.as_slice()) {
            Some(at) => Some(at),
            None => first_endless(table, second.as_slice()),
        },
        NamedStmt::While { at, body, .. } => match first_endless(table, body.as_slice()) {
            Some(inner) => Some(inner),
            None => endless_at(is_sure(table, body.as_slice()), *at),
        },
        NamedStmt::Repeat { at, count, body } => match first_endless(table, body.as_slice()) {
            Some(inner) => Some(inner),
            None => endless_at(repeat_ends(table, count, body.as_slice()), *at),
        },
    }
}

/// Of the loops of a body that may turn so, the word of the one that ends first.
#[cycle(first_endless)]
pub fn first_endless(table: &[Option<Steps>], body: &[NamedStmt]) -> Option<u32>
    requires { TableIsSmall table.now }
    ensures { result ≡ first_of (endless_in (entry table.now) (statements_of body.now)) }
{
    for statement in body {
        match first_endless_of(table, statement) {
            Some(at) => return Some(at),
            None => {}
        }
    }
    None
}
