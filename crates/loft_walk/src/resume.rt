//! Where a frame goes on after its stop (docs/SEMANTICS.md, "Tree").

ghost use Rattle.std.specs.Prelude.{◌≡◌, IfOk, drop};
ghost use Rattle.loft_sense.specs.Tree.{after_step, after_body, stop_at_step, stop_at, first_count as first_of};
ghost use Rattle.loft_walk.specs.Pieces.{IsFound, work_of, body_from, step_from};

use crate::work::Piece;
use loft_base::NoMemory;
use loft_tree::NamedStmt;

/// Looks for stop k in the body. Where it is there, the work after it is added, and it is the answer.
#[cycle(find)]
#[tactic(auto, using(crate::proofs::Onto::onto, loft_tree::proofs::NamedTrees::named_statements))]
pub fn find_in_body<'a>(
    body: &'a [NamedStmt],
    k: u32,
    counts: &[i64],
    work: &mut Vec<Piece<'a>>,
) -> Result<Option<&'a NamedStmt>, NoMemory>
    ensures { IfOk result (λ found. IsFound found (stop_at (body_from body.now) k)
        (after_body (body_from body.now) k counts.now (work_of work.old.items)) work.old.items work.new.items) }
{
    for (i, statement) in body.iter().enumerate() {
        work.push(Piece::Rest(&body[i + 1..]))?;
        if let Some(found) = find_in_statement(statement, k, counts, work)? {
            return Ok(Some(found));
        }
        work.pop();
    }
    Ok(None)
}

/// The same in a statement.
#[cycle(find)]
#[tactic(auto, using(crate::proofs::Onto::onto, loft_tree::proofs::NamedTrees::named_statements))]
fn find_in_statement<'a>(
    statement: &'a NamedStmt,
    k: u32,
    counts: &[i64],
    work: &mut Vec<Piece<'a>>,
) -> Result<Option<&'a NamedStmt>, NoMemory>
    ensures { IfOk result (λ found. IsFound found (stop_at_step (step_from statement.now) k)
        (after_step (step_from statement.now) k counts.now (work_of work.old.items)) work.old.items work.new.items) }
{
    match statement {
        NamedStmt::If {
            at: _,
            test: _,
            first,
            second,
        } => {
            if let Some(found) = find_in_body(first, k, counts, work)? {
                return Ok(Some(found));
            }
            find_in_body(second, k, counts, work)
        }
        NamedStmt::While { at: _, test, body } => {
            let body = body.as_slice();
            work.push(Piece::Again(test, body))?;
            if let Some(found) = find_in_body(body, k, counts, work)? {
                return Ok(Some(found));
            }
            work.pop();
            Ok(None)
        }
        NamedStmt::Repeat {
            at: _,
            count: _,
            body,
        } => {
            let body = body.as_slice();
            work.push(Piece::Turns(first_count(counts), body))?;
            if let Some(found) = find_in_body(body, k, inner_counts(counts), work)? {
                return Ok(Some(found));
            }
            work.pop();
            Ok(None)
        }
        NamedStmt::Hold { stop, .. } | NamedStmt::Run { stop, .. } => {
            if *stop == k {
                return Ok(Some(statement));
            }
            Ok(None)
        }
        NamedStmt::Do { .. } => Ok(None),
    }
}

/// The first count, 0 if there is none.
fn first_count(counts: &[i64]) -> i64
    ensures { result ≡ first_of counts.now }
{
    match counts.first() {
        None => 0,
        Some(count) => *count,
    }
}

/// The counts after the first.
fn inner_counts(counts: &[i64]) -> &[i64]
    ensures { result.now ≡ drop 1 counts.now }
{
    match counts.split_first() {
        None => counts,
        Some((_, rest)) => rest,
    }
}
