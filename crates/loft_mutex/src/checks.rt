//! What is asked of the program that the written text is.

ghost use Rattle.std.specs.Prelude.{◌≡◌, ◌≤◌, map, length, IfOk, IfErr, OnOk, None};
ghost use Rattle.loft_lex.specs.declared.TheConstants.{MAX_TEXT_LEN};
ghost use Rattle.loft_tree.specs.ProgramView.{module_of, program_of};
ghost use Rattle.loft_place.specs.Links.{IsPlaced};
ghost use Rattle.loft_lock_forms.specs.Marks.{AreRising};
ghost use Rattle.loft_lock_forms.specs.Seen.{marks_seen};
ghost use Rattle.loft_lock_expansion.specs.Expansion.{first_unpaired};
ghost use Rattle.loft_mutex.specs.Refusing.{module_names};
ghost use Rattle.loft_mutex.specs.Stages.{IsProgramOf, IsTextFault, IsPlaceFault, IsUnpaired, IsLeaving, Stays, IsChecked, IsCheckFault};

use crate::error::MutexError;
use loft_base::{NoMemory, Sequence};
use loft_lock_forms::{Mark, Written};
use loft_lock_pairs::{first_leaving, first_unpaired, leaving_modules};
use loft_names::resolve;
use loft_parse::parse;
use loft_place::{Placed, place};
use loft_tree::{Heads, Module, Named, Names};
use std::alloc::Global;

/// The program with numbers that a text is.
fn named(alloc: Global, text: &[u8]) -> Result<Named, MutexError>
    requires { length text.now ≤ MAX_TEXT_LEN }
    ensures program { IfOk result (λ n. IsProgramOf text.now (program_of n)) }
    ensures fault { IfErr result (IsTextFault text.now) }
{
    let program = parse(alloc, text)?;
    Ok(resolve(alloc, program)?)
}

/// Whether the modules keep the rules of pairs; else the first that doesn't.
fn check_paired(alloc: Global, marks: &[Mark], modules: &[Module]) -> Result<(), MutexError>
    requires few { length modules.now ≤ 256 }
    requires rising { AreRising 0 (marks_seen marks.now) }
    ensures paired { OnOk result (first_unpaired (marks_seen marks.now) (map module_of modules.now) ≡ None) }
    ensures fault { IfErr result (IsUnpaired (marks_seen marks.now) (map module_of modules.now)) }
{
    match first_unpaired(alloc, marks, modules)? {
        None => Ok(()),
        Some((module, lock)) => {
            let lock = Sequence::from_slice(alloc, lock)?;
            Err(MutexError::Pair { module, lock })
        }
    }
}

/// Whether nothing leaves a pair; else the first module that does.
fn check_leaving(alloc: Global, marks: &[Mark], modules: &[Module]) -> Result<(), MutexError>
    requires few { length modules.now ≤ 256 }
    requires rising { AreRising 0 (marks_seen marks.now) }
    ensures stays { OnOk result (Stays (marks_seen marks.now) (map module_of modules.now)) }
    ensures fault { IfErr result (IsLeaving (marks_seen marks.now) (map module_of modules.now)) }
{
    let away = leaving_modules(alloc, modules)?;
    match first_leaving(alloc, marks, away.as_slice(), modules)? {
        None => Ok(()),
        Some((module, lock)) => {
            let lock = Sequence::from_slice(alloc, lock)?;
            Err(MutexError::Leaves { module, lock })
        }
    }
}

/// The names of the schedulers, by their numbers.
fn scheduler_names(heads: &Heads) -> Result<Names, NoMemory>
    ensures { IfOk result (λ names. names ≡ heads.now.schedulers) }
{
    Ok(heads.schedulers.clone()?)
}

/// The program that a text is, with correct links. `names` become those of its schedulers.
fn placed(alloc: Global, text: &[u8], names: &mut Names) -> Result<Placed, MutexError>
    requires { length text.now ≤ MAX_TEXT_LEN }
    ensures program { IfOk result (λ p. IsProgramOf text.now (program_of p)) }
    ensures placed { IfOk result (λ p. IsPlaced (program_of p)) }
    ensures fault { IfErr result (IsPlaceFault text.now names.new) }
{
    let named = named(alloc, text)?;
    *names = scheduler_names(&named.program().heads)?;
    match place(alloc, named) {
        Ok(placed) => Ok(placed),
        Err(fault) => Err(MutexError::Place(fault)),
    }
}

/// The names of the modules, by their numbers.
///
/// # Errors
///
/// Out of memory.
pub fn module_names(alloc: Global, heads: &Heads) -> Result<Names, NoMemory>
    ensures { IfOk result (λ names. names ≡ module_names heads.now) }
{
    let mut names = Sequence::new(alloc);
    for module in heads.modules.as_slice() {
        names.push(Sequence::from_slice(alloc, module.name.as_slice())?)?;
    }
    Ok(names)
}

/// Whether the written text is a program with correct names, links and pairs; else why not. `names` become those of what the
/// error tells by number.
pub fn check_written(alloc: Global, written: &Written, names: &mut Names) -> Result<(), MutexError>
    requires short { length written.now.text.items ≤ MAX_TEXT_LEN }
    requires rising { AreRising 0 (marks_seen written.now.marks.items) }
    ensures checked { OnOk result (IsChecked written.now.text.items (marks_seen written.now.marks.items)) }
    ensures fault { IfErr result (IsCheckFault written.now.text.items (marks_seen written.now.marks.items) names.new) }
{
    let placed = placed(alloc, written.text.as_slice(), names)?;
    let program = placed.program();
    *names = module_names(alloc, &program.heads)?;
    check_paired(alloc, written.marks.as_slice(), program.modules.as_slice())?;
    check_leaving(alloc, written.marks.as_slice(), program.modules.as_slice())
}
