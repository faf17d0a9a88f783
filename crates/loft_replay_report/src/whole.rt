//! The replay of a whole text.

ghost use Rattle.std.specs.Prelude.{ℕ, ◌<◌, ◌≤◌, List, length, OnOk, IfErr};
ghost use Rattle.loft_orders.specs.declared.entry.Entry.{Entry};
ghost use Rattle.loft_tree.specs.ProgramView.{program_of};
ghost use Rattle.loft_tree.specs.Resolved.{resolved_of};
ghost use Rattle.loft_sense.specs.Machine.{Tree};
ghost use Rattle.loft_history.specs.Report.{report};
ghost use Rattle.loft_report_shape.specs.Told.{Report};
ghost use Rattle.loft_report_shape.specs.Report.{StopsAt, longest};
ghost use Rattle.loft_report_reader.specs.Log.{error_at};
ghost use Rattle.loft_report_reader.specs.declared.error.LogError.TheVariants.{TooLong};
ghost use Rattle.loft_replay.specs.Whole.{IsWhole, IsNotAllowed};
ghost use Rattle.loft_replay_error.specs.Difference.{DifferAt};
ghost use Rattle.loft_replay_error.specs.declared.error.ReplayError.TheVariants.{Log, NotAllowed, Differs};
ghost use Rattle.loft_replay_report.specs.Replays.{Tells, IsReplayed, IsRefusalOf, IsAccepted, IsRefused};

use crate::raw::replay_raw;
use loft_place::Placed;
use loft_replay_error::ReplayError;
use loft_report_reader::read_report;
use loft_report_shape::{reports_have_one_text, texts_are_one_report_or_stop};
use std::alloc::Global;

/// Reads a text as a report and replays it by a placed program (docs/REPORT.md, "Replay"): Ok exactly if it has at most
/// 1 GiB and is the report of the history of its own choices with its own options, and this has ended, unless it is out
/// of memory.
///
/// # Errors
///
/// `Log` if the text isn't a report, as `read_report` says why. Else `NotAllowed` and `Differs` as in `replay_raw`. Out of
/// memory.
pub fn replay_all(alloc: Global, p: &Placed, text: &[u8]) -> Result<(), ReplayError>
    ensures same { OnOk result (IsReplayed (Tree (resolved_of (program_of p.now))) text.now) }
    ensures refusal { IfErr result (IsRefusalOf (Tree (resolved_of (program_of p.now))) text.now) }

    // Nothing else is answered.
    ensures accepted { IsReplayed (Tree (resolved_of (program_of p.now))) text.now → IsAccepted result }
    ensures not_allowed { (r : Report) (entry : ℕ) → Tells text.now r
        → IsNotAllowed (Tree (resolved_of (program_of p.now))) r.options r.choices entry
        → IsRefused result (NotAllowed entry) }
    ensures differs { (r : Report) (h : List Entry) (byte : ℕ) → Tells text.now r
        → IsWhole (Tree (resolved_of (program_of p.now))) r.options r.choices h
        → DifferAt text.now (report (Tree (resolved_of (program_of p.now))) r.options h) byte
        → IsRefused result (Differs byte) }
    ensures stop { (k : ℕ) → length text.now ≤ longest → StopsAt text.now k
        → IsRefused result (Log (error_at text.now k)) }
    ensures too_long { longest < length text.now → IsRefused result (Log TooLong) }
{
    reports_have_one_text();
    texts_are_one_report_or_stop();
    let r = match read_report(alloc, text) {
        Ok(r) => r,
        Err(e) => return Err(ReplayError::from(e)),
    };
    match replay_raw(alloc, p, &r) {
        Ok(_) => Ok(()),
        Err(error) => Err(error),
    }
}
