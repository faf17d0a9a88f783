//! What the command answers, before anything is written.

ghost use Rattle.std.specs.Prelude.{◌≡◌, ◌≢◌, ◌<◌, ◌≤◌, ℕ, List, length, Some, Err, IfSome, IfOk, IfErr, IsTrue, IsErrOf, true};
ghost use Rattle.loft_base.specs.Writing.{are_lines};
ghost use Rattle.std.specs.Option.{option_copied};
ghost use Rattle.loft_base.specs.Outside.{Rose};
ghost use Rattle.loft_tree.specs.Source.{Source};
ghost use Rattle.loft_tree.specs.ProgramView.{program_of};
ghost use Rattle.loft_numbers.specs.Numbers.{numbered};
ghost use Rattle.loft_replay.specs.Named.{scheduler_named};
ghost use Rattle.loft_replay_command.specs.Replay.{IsWellSourceOf, HasNoScheduler, IsSourceStop};
ghost use Rattle.loft_replay_command.specs.Finding.{seen, answer_text, IsNamed, IsUnsound, Finds};

use crate::answer::Answer;
use crate::checking::check_file;
use crate::refusal::ReplayStop;
use loft_base::{Files, SchedId};
use loft_names::names_are_decided;
use loft_parse::texts_are_decided;
use loft_place::{Placed, links_are_decided};
use loft_refusal::{place_program, read_program};
use loft_tree::Heads;
use std::alloc::Global;

/// The program in a file, whose names and links are correct.
fn read_source<F: Files>(alloc: Global, files: &mut F, name: &str) -> Result<Placed, ReplayStop>
    requires { IsTrue (F.may_ask files.old name.now) }
    ensures source { (contents : List ℕ) → F.contents files.old name.now ≡ Some contents
        → IfOk result (λ p. (q : Source) × IsWellSourceOf contents q × (program_of p ≡ numbered q)) }
    ensures refused { (contents : List ℕ) → F.contents files.old name.now ≡ Some contents
        → IfErr result (IsUnsound contents) }
    ensures no_sink { IfErr result (λ e. e ≡ ReplayStop.SinkFault → ⊥) }
    ensures file_fault { IsErrOf result ReplayStop.FileFault → Rose (F.faults files.old) (F.faults files.new) }
    ensures never_falls { F.faults files.old ≤ F.faults files.new }
    ensures sure { IsTrue (F.never_fails files.old name.now) → IfErr result (λ e. e ≡ ReplayStop.FileFault → ⊥) }
    ensures no_fault { IsTrue (F.never_fails files.old name.now) → F.faults files.new ≡ F.faults files.old }
    ensures same_contents { F.contents files.new ≡ F.contents files.old }
    ensures same_names { F.may_ask files.new ≡ F.may_ask files.old }
    ensures same_sure { F.never_fails files.new ≡ F.never_fails files.old }
{
    let program = read_program(alloc, files, name)?;
    Ok(place_program(alloc, program)?)
}

/// The index of the first scheduler of this name.
fn scheduler_index(heads: &Heads, name: &[u8]) -> Option<usize>
    ensures within { IfSome result (λ k. k < length heads.now.schedulers) }
    ensures first { result ≡ scheduler_named heads.now name.now }
{
    let schedulers = heads.schedulers.as_slice();
    schedulers.iter().position(|other| other.as_slice() == name)
}

/// The scheduler that is named, where a name is given.
fn named(p: &Placed, only: Option<&str>) -> Result<Option<SchedId>, ReplayStop>
    ensures named { IfOk result (IsNamed p.now.heads (option_copied only.entry)) }
    ensures unknown { IfErr result (λ e. (e ≡ ReplayStop.UnknownScheduler)
        × HasNoScheduler p.now.heads (option_copied only.entry)) }
{
    let Some(name) = only else {
        return Ok(None);
    };
    match scheduler_index(&p.program().heads, name.as_bytes()) {
        Some(index) => Ok(Some(SchedId(index as u32))),
        None => Err(ReplayStop::UnknownScheduler),
    }
}

/// Reads the source, looks up the scheduler, reads the report and checks it, in this order.
pub(crate) fn find<F: Files>(
    alloc: Global,
    source: &str,
    report: &str,
    only: Option<&str>,
    files: &mut F,
) -> Result<Answer, ReplayStop>
    requires source { IsTrue (F.may_ask files.old source.now) }
    requires report { IsTrue (F.may_ask files.old report.now) }
    ensures finds { Finds (option_copied only.entry) (F.contents files.old source.now)
        (F.contents files.old report.now) (seen result) }
    ensures lines { IfOk result (λ answer. are_lines (answer_text answer) ≡ true) }
    ensures no_sink { IfErr result (λ e. e ≡ ReplayStop.SinkFault → ⊥) }
    ensures file_fault { IsErrOf result ReplayStop.FileFault → Rose (F.faults files.old) (F.faults files.new) }
    ensures never_falls { F.faults files.old ≤ F.faults files.new }
    ensures sure { IsTrue (F.never_fails files.old source.now) → IsTrue (F.never_fails files.old report.now)
        → result ≢ Err ReplayStop.FileFault }
    ensures no_fault { IsTrue (F.never_fails files.old source.now) → IsTrue (F.never_fails files.old report.now)
        → F.faults files.new ≡ F.faults files.old }
    ensures source_first { (s : List ℕ) (e : ReplayStop) → IsTrue (F.never_fails files.old source.now)
        → F.contents files.old source.now ≡ Some s → IsSourceStop (option_copied only.entry) s e
        → result ≢ Err ReplayStop.FileFault × (F.faults files.new ≡ F.faults files.old) }
{
    texts_are_decided();
    names_are_decided();
    links_are_decided();
    let placed = read_source(alloc, files, source)?;
    let only = named(&placed, only)?;
    check_file(alloc, files, report, &placed, only)
}
