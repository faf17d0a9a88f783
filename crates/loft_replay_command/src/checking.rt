//! A report is checked by a program.

ghost use Rattle.std.specs.Prelude.{◌≢◌, ◌<◌, ◌≤◌, ℕ, List, length, Some, Err, IfSome, IfOk, IfErr, IsTrue, IsErrOf, true, ◌≡◌};
ghost use Rattle.loft_base.specs.Writing.{are_lines};
ghost use Rattle.loft_base.specs.Outside.{Rose};
ghost use Rattle.loft_report_reader.specs.Answer.{report_in};
ghost use Rattle.loft_standing.specs.Stops.{tree_of};
ghost use Rattle.loft_replay_report.specs.Replays.{Tells};
ghost use Rattle.loft_replay_command.specs.Replay.{WholeComesTo, BlockComesTo};
ghost use Rattle.loft_replay_command.specs.Finding.{seen, answer_text, Found, CheckComesTo, IsOfCheck, IsOfReport};

use crate::answer::Answer;
use crate::refusal::ReplayStop;
use crate::stops::{stop_of_block, stop_of_whole};
use loft_base::{Files, SchedId};
use loft_block_replay::raw_one;
use loft_place::Placed;
use loft_replay_report::replay_raw;
use loft_report_file::read_log;
use loft_report_reader::RawReport;
use loft_report_shape::{reports_have_one_text, texts_are_one_report_or_stop};
use std::alloc::Global;
use std::mem::forget;

/// Checks that a report is that of its own history.
fn check_whole(alloc: Global, p: &Placed, r: &RawReport) -> Result<Answer, ReplayStop>
    ensures found { (text : List ℕ) → Tells text (report_in r.now)
        → Found (WholeComesTo (tree_of p.now) text) (seen result) }
    ensures stops { IfErr result IsOfCheck }
    ensures lines { IfOk result (λ answer. are_lines (answer_text answer) ≡ true) }
{
    reports_have_one_text();
    texts_are_one_report_or_stop();
    match replay_raw(alloc, p, r) {
        Ok(run) => {
            // The program ends after it: nothing needs this memory any more.
            forget(run);
            Ok(Answer::Whole)
        }
        Err(error) => Err(stop_of_whole(error)),
    }
}

/// Checks that the block of a scheduler is the scheduler's on the batches that the block prints.
fn check_block(alloc: Global, p: &Placed, r: &RawReport, s: SchedId) -> Result<Answer, ReplayStop>
    requires { s.0 < length p.now.heads.schedulers }
    ensures found { (text : List ℕ) → Tells text (report_in r.now)
        → Found (BlockComesTo (tree_of p.now) s.0 text) (seen result) }
    ensures stops { IfErr result IsOfCheck }
    ensures lines { IfOk result (λ answer. are_lines (answer_text answer) ≡ true) }
{
    reports_have_one_text();
    texts_are_one_report_or_stop();
    match raw_one(alloc, p, r, s) {
        Ok(block) => Ok(Answer::Block(block)),
        Err(error) => Err(stop_of_block(error)),
    }
}

/// Checks all of a report, or the block of a scheduler.
fn check(
    alloc: Global,
    p: &Placed,
    r: &RawReport,
    only: Option<SchedId>,
) -> Result<Answer, ReplayStop>
    requires { IfSome only (λ s. s.0 < length p.now.heads.schedulers) }
    ensures found { (text : List ℕ) → Tells text (report_in r.now)
        → Found (CheckComesTo (tree_of p.now) only text) (seen result) }
    ensures stops { IfErr result IsOfCheck }
    ensures lines { IfOk result (λ answer. are_lines (answer_text answer) ≡ true) }
{
    match only {
        Some(s) => check_block(alloc, p, r, s),
        None => check_whole(alloc, p, r),
    }
}

/// The same of the report in a file.
pub(crate) fn check_file<F: Files>(
    alloc: Global,
    files: &mut F,
    name: &str,
    p: &Placed,
    only: Option<SchedId>,
) -> Result<Answer, ReplayStop>
    requires asked { IsTrue (F.may_ask files.old name.now) }
    requires declared { IfSome only (λ s. s.0 < length p.now.heads.schedulers) }
    ensures found { (text : List ℕ) → F.contents files.old name.now ≡ Some text
        → Found (CheckComesTo (tree_of p.now) only text) (seen result) }
    ensures stops { IfErr result IsOfReport }
    ensures lines { IfOk result (λ answer. are_lines (answer_text answer) ≡ true) }
    ensures file_fault { IsErrOf result ReplayStop.FileFault → Rose (F.faults files.old) (F.faults files.new) }
    ensures never_falls { F.faults files.old ≤ F.faults files.new }
    ensures sure { IsTrue (F.never_fails files.old name.now) → result ≢ Err ReplayStop.FileFault }
    ensures no_fault { IsTrue (F.never_fails files.old name.now) → F.faults files.new ≡ F.faults files.old }
{
    reports_have_one_text();
    texts_are_one_report_or_stop();
    let report = read_log(alloc, files, name)?;
    check(alloc, p, &report, only)
}
