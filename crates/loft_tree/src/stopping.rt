//! Counting stops.

ghost use Rattle.std.specs.Prelude.{◌≡◌, ◌<◌, ◌^◌};
ghost use Rattle.loft_tree.specs.NamedView.{statement_of, statements_of};
ghost use Rattle.loft_tree.specs.Stops.{stops_in, body_stops};

use crate::named::{Module, NamedStmt};

/// How many stops a statement has.
#[cycle(stops)]
#[tactic(auto, using(crate::proofs::NamedTrees::named_statements))]
fn stops_in(statement: &NamedStmt) -> u32
    requires { stops_in (statement_of statement.now) < 2 ^ 32 }
    ensures { result ≡ stops_in (statement_of statement.now) }
{
    match statement {
        NamedStmt::Do { .. } => 0,
        NamedStmt::Hold { .. } | NamedStmt::Run { .. } => 1,
        NamedStmt::If { first, second, .. } => {
            body_stops(first.as_slice()) + body_stops(second.as_slice())
        }
        NamedStmt::While { body, .. } | NamedStmt::Repeat { body, .. } => {
            body_stops(body.as_slice())
        }
    }
}

/// How many stops the statements of a body have.
#[cycle(stops)]
fn body_stops(body: &[NamedStmt]) -> u32
    requires { body_stops (statements_of body.now) < 2 ^ 32 }
    ensures { result ≡ body_stops (statements_of body.now) }
{
    let mut count = 0;
    for statement in body {
        count += stops_in(statement);
    }
    count
}

/// The number of stop statements of a module of a program, also those in the bodies of others; at most 4,096.
pub fn stops(module: &Module) -> u32
    ensures { result ≡ body_stops (statements_of «module».now.body.items) }
{
    body_stops(module.body.as_slice())
}
