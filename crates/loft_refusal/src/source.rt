//! The program in a file, and the same placed.

ghost use Rattle.std.specs.Prelude.{◌≡◌, ◌≤◌, ℕ, List, Some, IfOk, IfErr, IsErrOf, IsTrue, OnOk};
ghost use Rattle.loft_base.specs.Outside.{Rose};
ghost use Rattle.loft_tree.specs.View.{source_of};
ghost use Rattle.loft_tree.specs.ProgramView.{program_of};
ghost use Rattle.loft_numbers.specs.Numbers.{numbered};
ghost use Rattle.loft_refusal.specs.Refusals.{IsSourceOf, Well};
ghost use Rattle.loft_refusal.specs.Found.{IsFault, IsUnfit};

use crate::refusal::{Refusal, Stopped};
use loft_base::{Files, read_whole};
use loft_lex::MAX_TEXT_LEN;
use loft_names::resolve;
use loft_parse::parse;
use loft_place::{Placed, place};
use loft_tree::Program;
use std::alloc::Global;

/// Reads the program in a file.
pub fn read_program<F: Files>(alloc: Global, files: &mut F, name: &str) -> Result<Program, Stopped>
    requires { IsTrue (F.may_ask files.old name.now) }
    ensures program { (contents : List ℕ) → F.contents files.old name.now ≡ Some contents
        → IfOk result (λ p. IsSourceOf contents (source_of p)) }
    ensures refused { (contents : List ℕ) → F.contents files.old name.now ≡ Some contents
        → IfErr result (IsFault contents) }
    ensures file_fault { IsErrOf result Stopped.FileFault → Rose (F.faults files.old) (F.faults files.new) }
    ensures no_sink { IfErr result (λ e. e ≡ Stopped.SinkFault → ⊥) }
    ensures never_falls { F.faults files.old ≤ F.faults files.new }
    ensures sure { IsTrue (F.never_fails files.old name.now) → IfErr result (λ e. e ≡ Stopped.FileFault → ⊥) }
    ensures no_fault { IsTrue (F.never_fails files.old name.now) → F.faults files.new ≡ F.faults files.old }
    ensures same_contents { F.contents files.new ≡ F.contents files.old }
    ensures same_names { F.may_ask files.new ≡ F.may_ask files.old }
    ensures same_sure { F.never_fails files.new ≡ F.never_fails files.old }
{
    let text = read_whole(alloc, files, name, MAX_TEXT_LEN as u64)?;
    Ok(parse(alloc, text.as_slice())?)
}

/// The program with numbers in place of names, its threads linked wherever its statements need it; else why not, names
/// before links.
pub fn place_program(alloc: Global, program: Program) -> Result<Placed, Stopped>
    ensures program { IfOk result (λ p. program_of p ≡ numbered (source_of program)) }
    ensures well { OnOk result (Well (source_of program)) }
    ensures refused { IfErr result (IsUnfit (source_of program)) }
{
    let named = resolve(alloc, program)?;
    let schedulers = named.program().heads.schedulers.clone()?;
    match place(alloc, named) {
        Ok(placed) => Ok(placed),
        Err(fault) => Err(Stopped::Refused(Refusal::Links { fault, schedulers })),
    }
}
