//! One scheduler's block of a report.

ghost use Rattle.std.specs.Prelude.{◌≡◌, ◌<◌, ◌≤◌, ℕ, List, length, Some, Result, Err, IfSome};
ghost use Rattle.std.specs.List.{position};
ghost use Rattle.std.specs.Str.{bytes_eq};
ghost use Rattle.loft_standing.specs.Stops.{tree_of};
ghost use Rattle.loft_report_shape.specs.Told.{Report};
ghost use Rattle.loft_report_shape.specs.Report.{Shape, StopsAt, longest};
ghost use Rattle.loft_report_reader.specs.Answer.{report_in};
ghost use Rattle.loft_report_reader.specs.Log.{error_at};
ghost use Rattle.loft_report_reader.specs.declared.error.LogError.TheVariants.{TooLong};
ghost use Rattle.loft_replay_error.specs.declared.error.ReplayError.{ReplayError};
ghost use Rattle.loft_replay_error.specs.declared.error.ReplayError.TheVariants.{Log};
ghost use Rattle.loft_block_replay.specs.Answer.{index_of_block, IsAnswer, HasCause, Gives, in_range, seen, TextCause};

use crate::block::{Outcome, replay_block};
use loft_base::SchedId;
use loft_place::Placed;
use loft_raw_block::{first_difference, offset_after};
use loft_replay_error::ReplayError;
use loft_report_options::options_of_reports_are_in_range;
use loft_report_reader::{RawReport, read_report};
use loft_report_shape::{RawBlock, reports_have_one_text};
use std::alloc::Global;

/// The index of the first block of this name.
fn block_named(blocks: &[RawBlock], name: &[u8]) -> Option<usize>
    ensures within { IfSome result (λ k. k < length blocks.now) }
    ensures first { result ≡ position (λ block. bytes_eq block.name name.now) blocks.now }
{
    blocks
        .iter()
        .position(|block| block.name.as_slice() == name)
}

/// The block at this index, the first of the scheduler, if it is that of the scheduler on the batches that it prints.
fn replay_at(
    alloc: Global,
    p: &Placed,
    r: &RawReport,
    s: SchedId,
    index: usize,
) -> Result<Vec<u8>, ReplayError>
    requires within { index < length r.now.blocks }
    requires first { index_of_block (tree_of p.now) s r.now.blocks ≡ Some index }
    ensures cause { HasCause (tree_of p.now) (report_in r.now) s (seen (λ v. v.items) result) }
    ensures exact { (answer : Result (List ℕ) ReplayError)
        → IsAnswer (tree_of p.now) (report_in r.now) s answer
        → Gives (seen (λ v. v.items) result) (in_range answer) }
{
    options_of_reports_are_in_range();
    let blocks = r.blocks.as_slice();
    let block = &blocks[index];
    match replay_block(alloc, p, r.options.limits, s, block.instants.as_slice())? {
        Outcome::Stopped { entry } => Err(ReplayError::NotAllowed { entry }),
        Outcome::Whole(bytes) => match first_difference(block, bytes.as_slice()) {
            None => Ok(bytes.into_vec()),
            Some(byte) => Err(ReplayError::Differs {
                byte: offset_after(r, &blocks[..index]).saturating_add(byte),
            }),
        },
    }
}

/// The block of a scheduler in a report, by the batches that the block prints: the first block of its name, if each order
/// of each batch may be given to the scheduler, the scheduler makes a turn on each batch, and the block is the
/// scheduler's on these batches (docs/REPORT.md, "Replay"). Nothing else of the report is asked but its options.
///
/// # Errors
///
/// `NotAllowed` names the first instant of the block that isn't so, counted from 1 whatever number it prints. If all are,
/// `Differs` names the first byte of the report's text at which the block is another one, or the one at which the
/// left-over part begins if there is no block of the scheduler; it stops at the largest number. `Log` never comes. Out of
/// memory.
pub fn raw_one(alloc: Global, p: &Placed, r: &RawReport, s: SchedId) -> Result<Vec<u8>, ReplayError>
    requires { s.0 < length p.now.heads.schedulers }
    ensures cause { HasCause (tree_of p.now) (report_in r.now) s (seen (λ v. v.items) result) }
    ensures exact { (answer : Result (List ℕ) ReplayError)
        → IsAnswer (tree_of p.now) (report_in r.now) s answer
        → Gives (seen (λ v. v.items) result) (in_range answer) }
{
    let blocks = r.blocks.as_slice();
    let name = &p.heads().schedulers.as_slice()[s.0 as usize];
    match block_named(blocks, name.as_slice()) {
        Some(index) => replay_at(alloc, p, r, s, index),
        None => Err(ReplayError::Differs {
            byte: offset_after(r, blocks),
        }),
    }
}

/// The same of the report that a text is.
///
/// # Errors
///
/// `Log` exactly if the text isn't a report, by the error of `read_report`. Else as `raw_one`.
pub fn replay_one(
    alloc: Global,
    p: &Placed,
    text: &[u8],
    s: SchedId,
) -> Result<Vec<u8>, ReplayError>
    requires { s.0 < length p.now.heads.schedulers }
    ensures cause { TextCause (tree_of p.now) text.now s (seen (λ v. v.items) result) }
    ensures report { (r : Report) → length text.now ≤ longest → Shape text.now r
        → (answer : Result (List ℕ) ReplayError) → IsAnswer (tree_of p.now) r s answer
        → Gives (seen (λ v. v.items) result) answer }
    ensures stop { (k : ℕ) → length text.now ≤ longest → StopsAt text.now k
        → Gives (seen (λ v. v.items) result) (Err (Log (error_at text.now k))) }
    ensures too_long { longest < length text.now
        → Gives (seen (λ v. v.items) result) (Err (Log TooLong)) }
{
    reports_have_one_text();
    let r = read_report(alloc, text)?;
    raw_one(alloc, p, &r, s)
}
