//! The work that is left in a module (docs/SEMANTICS.md, "Tree").

ghost use Rattle.loft_walk.specs.Pieces.{IsTaken};

use loft_tree::{NamedExpr, NamedStmt};

/// A piece of the work that is left.
#[derive(Clone, Copy)]
pub enum Piece<'a> {
    /// The rest of a body.
    Rest(&'a [NamedStmt]),
    /// The next test of a `while`.
    Again(&'a NamedExpr, &'a [NamedStmt]),
    /// The next turn of a `repeat`, with so many turns still to come.
    Turns(i64, &'a [NamedStmt]),
}

/// What is to be done next.
#[derive(Clone, Copy)]
pub enum Task<'a> {
    /// A statement begins.
    Begin(&'a NamedStmt),
    /// The next test of a `while`.
    Again(&'a NamedExpr, &'a [NamedStmt]),
    /// The next turn of a `repeat`, with so many turns still to come.
    Turns(i64, &'a [NamedStmt]),
}

/// Takes the next task: the last piece is made shorter where it stands, or dropped.
#[tactic(auto, using(crate::proofs::Onto::onto))]
pub fn take<'a>(work: &mut Vec<Piece<'a>>) -> Option<Task<'a>>
    ensures { IsTaken result work.old.items work.new.items }
{
    'taking: while !work.is_empty() {
        let innermost = work.len() - 1;
        match work[innermost] {
            Piece::Rest(body) => {
                if let Some((statement, rest)) = body.split_first() {
                    work[innermost] = Piece::Rest(rest);
                    return Some(Task::Begin(statement));
                }
                work.pop();
            }
            Piece::Again(test, body) => {
                work.pop();
                return Some(Task::Again(test, body));
            }
            Piece::Turns(count, body) => {
                work.pop();
                return Some(Task::Turns(count, body));
            }
        }
    }
    None
}
