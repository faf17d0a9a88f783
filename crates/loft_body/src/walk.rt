//! The steps of statements, by those of the modules that they run.

ghost use Rattle.std.specs.Prelude.{◌≡◌, Option, Some, None};
ghost use Rattle.loft_tree.specs.NamedView.{term_of, pause_of as named_pause_of, statement_of, statements_of};
ghost use Rattle.loft_tree.specs.Resolved.{exp_of, pause_of, step_of, body_of};
ghost use Rattle.loft_budget.specs.Steps.{literal, loop_steps, times_steps, pause_steps, steps_or_none, step_steps, body_steps};
ghost use Rattle.loft_body.specs.Capped.{capped, capped_steps, IsSmall, AreSmall, entry, TableIsSmall};

use crate::steps::{counted, either, followed, for_ever, one_more, only_through, surely, turning};
use loft_base::ModuleId;
use loft_budget::Steps;
use loft_tree::{NamedExpr, NamedStmt, Pause};

/// A bare number, as it is counted.
pub fn bare_number(e: &NamedExpr) -> Option<u64>
    ensures number { result ≡ capped (literal (exp_of (term_of e.now))) }
    ensures small { IsSmall result }
{
    match e {
        NamedExpr::Number(value) if *value < 0 => Some(0),
        NamedExpr::Number(value) => Some(counted(*value as u64)),
        _ => None,
    }
}

/// The steps of a module by the table.
fn module_steps(table: &[Option<Steps>], m: ModuleId) -> Steps
    requires { TableIsSmall table.now }
    ensures steps { result ≡ steps_or_none (entry table.now m) }
    ensures small { AreSmall result }
{
    match table.get(m.0 as usize) {
        Some(Some(steps)) => *steps,
        _ => only_through(0),
    }
}

/// The steps of a loop each of whose turns makes a sure statement.
fn loop_counted(body: Steps) -> Steps
    requires { AreSmall body }
    ensures steps { result ≡ capped_steps (loop_steps body) }
    ensures small { AreSmall result }
{
    one_more(turning(1, body))
}

/// The steps of a `repeat`, by its bare number.
fn times_counted(count: Option<u64>, body: Steps) -> Steps
    requires count { IsSmall count }
    requires body { AreSmall body }
    ensures steps { result ≡ capped_steps (times_steps count body.through body) }
    ensures small { AreSmall result }
{
    match (count, body.through) {
        (Some(turns), Some(way)) => {
            let all = turns * (way + 1) + 2;
            turning(counted(all), body)
        }
        _ => loop_counted(body),
    }
}

/// The steps of a pause.
fn pause_steps(pause: &Pause) -> Steps
    ensures steps { result ≡ capped_steps (pause_steps (pause_of (named_pause_of pause.now))) }
    ensures small { AreSmall result }
{
    match pause {
        Pause::Cooperate { instants: None } | Pause::Link(_) | Pause::Unlink => surely(),
        Pause::Cooperate { instants: Some(_) }
        | Pause::Await { .. }
        | Pause::Get { .. }
        | Pause::Join { .. } => only_through(2),
        Pause::Halt => for_ever(),
    }
}

/// The steps of a statement.
#[cycle(steps)]
#[tactic(auto, using(loft_tree::proofs::NamedTrees::named_statements))]
fn statement_steps(table: &[Option<Steps>], statement: &NamedStmt) -> Steps
    requires { TableIsSmall table.now }
    ensures steps { result ≡ capped_steps (step_steps (entry table.now) (step_of (statement_of statement.now))) }
    ensures small { AreSmall result }
{
    match statement {
        NamedStmt::Do { .. } => only_through(1),
        NamedStmt::Hold { pause, .. } => pause_steps(pause),
        NamedStmt::Run { module, .. } => one_more(module_steps(table, *module)),
        NamedStmt::If { first, second, .. } => {
            let yes = body_steps(table, first.as_slice());
            let no = body_steps(table, second.as_slice());
            one_more(either(yes, no))
        }
        NamedStmt::While { body, .. } => loop_counted(body_steps(table, body.as_slice())),
        NamedStmt::Repeat { count, body, .. } => {
            times_counted(bare_number(count), body_steps(table, body.as_slice()))
        }
    }
}

/// The steps of a body.
#[cycle(steps)]
pub fn body_steps(table: &[Option<Steps>], body: &[NamedStmt]) -> Steps
    requires { TableIsSmall table.now }
    ensures steps { result ≡ capped_steps (body_steps (entry table.now) (body_of (statements_of body.now))) }
    ensures small { AreSmall result }
{
    let mut steps = only_through(0);
    for statement in body {
        steps = followed(steps, statement_steps(table, statement));
    }
    steps
}
