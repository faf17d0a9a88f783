//! The replay of a report that was read.

ghost use Rattle.std.specs.Prelude.{ℕ, List, IfOk, IfErr};
ghost use Rattle.loft_orders.specs.declared.entry.Entry.{Entry};
ghost use Rattle.loft_tree.specs.ProgramView.{program_of};
ghost use Rattle.loft_tree.specs.Resolved.{resolved_of};
ghost use Rattle.loft_sense.specs.Machine.{Tree};
ghost use Rattle.loft_history.specs.Report.{report};
ghost use Rattle.loft_report_shape.specs.Text.{text_of};
ghost use Rattle.loft_report_reader.specs.Answer.{report_in};
ghost use Rattle.loft_replay.specs.Named.{IsFollowed};
ghost use Rattle.loft_replay.specs.Whole.{IsWhole, IsNotAllowed};
ghost use Rattle.loft_replay_error.specs.Difference.{DifferAt};
ghost use Rattle.loft_replay_error.specs.declared.error.ReplayError.TheVariants.{NotAllowed, Differs};
ghost use Rattle.loft_replay_report.specs.Replays.{IsReportOf, IsRefusal, IsAccepted, IsRefused};

use crate::difference::first_difference;
use loft_log::reports_of_worlds_are_of_histories;
use loft_place::Placed;
use loft_replay::{FollowError, Replayed, follow_whole};
use loft_replay_error::ReplayError;
use loft_report_options::options_of_reports_are_in_range;
use loft_report_reader::RawReport;
use std::alloc::Global;

/// Replays a report on one thread, by the statements of a placed program, and compares it with the report of the history
/// that this makes (docs/REPORT.md, "Replay"): Ok exactly if the text of the report is that of the history of its own
/// choices with its own options, and this has ended, unless it is out of memory. What is left are the world, the notes
/// and the final states of that history.
///
/// # Errors
///
/// `NotAllowed` names the first entry, from 1, that no step allows, or the one after the last if the history hasn't
/// ended. If there is none, `Differs` names the first byte at which the text isn't that of its history. Out of memory.
/// `Log` never comes.
pub fn replay_raw(alloc: Global, p: &Placed, r: &RawReport) -> Result<Replayed, ReplayError>
    // What is left is that of the report's own history, which has ended, and the report is that of this history.
    ensures replayed { IfOk result (λ run.
        IsFollowed (Tree (resolved_of (program_of p.now))) r.now.options r.now.choices run) }
    ensures same { IfOk result (λ run. IsReportOf (Tree (resolved_of (program_of p.now)))
        (text_of (report_in r.now)) (report_in r.now) run.world.history) }
    ensures refusal { IfErr result (IsRefusal (Tree (resolved_of (program_of p.now)))
        (text_of (report_in r.now)) (report_in r.now)) }

    // Nothing else is answered.
    ensures accepted { (h : List Entry) → IsReportOf (Tree (resolved_of (program_of p.now)))
        (text_of (report_in r.now)) (report_in r.now) h → IsAccepted result }
    ensures not_allowed { (entry : ℕ) → IsNotAllowed (Tree (resolved_of (program_of p.now)))
        r.now.options r.now.choices entry → IsRefused result (NotAllowed entry) }
    ensures differs { (h : List Entry) (byte : ℕ)
        → IsWhole (Tree (resolved_of (program_of p.now))) r.now.options r.now.choices h
        → DifferAt (text_of (report_in r.now)) (report (Tree (resolved_of (program_of p.now))) r.now.options h) byte
        → IsRefused result (Differs byte) }
{
    options_of_reports_are_in_range();
    reports_of_worlds_are_of_histories();
    let run = match follow_whole(alloc, p, &r.options, &r.choices) {
        Ok(run) => run,
        Err(FollowError::NotAllowed { entry }) => return Err(ReplayError::NotAllowed { entry }),
        Err(FollowError::NoMemory) => return Err(ReplayError::NoMemory),
    };
    match first_difference(alloc, p.heads(), &run, r) {
        Ok(None) => Ok(run),
        Ok(Some(byte)) => {
            drop(run);
            Err(ReplayError::Differs { byte })
        }
        Err(error) => {
            drop(run);
            Err(ReplayError::from(error))
        }
    }
}
