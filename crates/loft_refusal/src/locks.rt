//! The program that the text with locks in a file stands for.

ghost use Rattle.std.specs.Prelude.{◌≡◌, ◌≤◌, ℕ, List, Some, IfOk, IfErr, IsErrOf, IsTrue};
ghost use Rattle.loft_base.specs.Outside.{Rose};
ghost use Rattle.loft_tree.specs.View.{source_of};
ghost use Rattle.loft_lock_expansion.specs.Expansion.{IsExpansion};
ghost use Rattle.loft_refusal.specs.Found.{IsUnexpanded};
ghost use Rattle.loft_refusal.specs.Stops.{stop_of_locks, stop_of_locks_file};

use crate::refusal::{Refusal, Stopped};
use loft_base::{FileError, Files, read_whole};
use loft_lex::MAX_TEXT_LEN;
use loft_mutex::{MutexError, expand_named};
use loft_tree::{Names, Program};
use std::alloc::Global;

/// What stops the reading of a text with locks that stands for no program, with the names of what the fault tells by number.
fn stop_of_fault(fault: MutexError, names: Names) -> Stopped
    ensures { result ≡ stop_of_locks fault names }
{
    match fault {
        MutexError::NoMemory => Stopped::NoMemory,
        fault => Stopped::Refused(Refusal::Locks { fault, names }),
    }
}

/// The program that a text stands for; else why it stands for none.
fn expanded(alloc: Global, text: &[u8]) -> Result<Program, Stopped>
    ensures program { IfOk result (λ p. IsExpansion text.now (source_of p)) }
    ensures refused { IfErr result (IsUnexpanded text.now) }
    ensures no_file { IfErr result (λ e. e ≡ Stopped.FileFault → ⊥) }
{
    let mut names = Names::new(alloc);
    match expand_named(alloc, text, &mut names) {
        Ok(program) => Ok(program),
        Err(fault) => Err(stop_of_fault(fault, names)),
    }
}

/// Why no text can be read from a file.
fn stop_of(alloc: Global, error: FileError) -> Stopped
    ensures { result ≡ stop_of_locks_file error }
{
    match error {
        FileError::Failed => Stopped::FileFault,
        FileError::TooLong => Stopped::Refused(Refusal::Locks {
            fault: MutexError::TooLong,
            names: Names::new(alloc),
        }),
        FileError::NoMemory => Stopped::NoMemory,
    }
}

/// Reads the text with locks in a file, and gives the program that it stands for.
pub fn expand_program<F: Files>(
    alloc: Global,
    files: &mut F,
    name: &str,
) -> Result<Program, Stopped>
    requires { IsTrue (F.may_ask files.old name.now) }
    ensures program { (contents : List ℕ) → F.contents files.old name.now ≡ Some contents
        → IfOk result (λ p. IsExpansion contents (source_of p)) }
    ensures refused { (contents : List ℕ) → F.contents files.old name.now ≡ Some contents
        → IfErr result (IsUnexpanded contents) }
    ensures file_fault { IsErrOf result Stopped.FileFault → Rose (F.faults files.old) (F.faults files.new) }
    ensures no_sink { IfErr result (λ e. e ≡ Stopped.SinkFault → ⊥) }
    ensures never_falls { F.faults files.old ≤ F.faults files.new }
    ensures sure { IsTrue (F.never_fails files.old name.now) → IfErr result (λ e. e ≡ Stopped.FileFault → ⊥) }
    ensures no_fault { IsTrue (F.never_fails files.old name.now) → F.faults files.new ≡ F.faults files.old }
{
    match read_whole(alloc, files, name, MAX_TEXT_LEN as u64) {
        Ok(text) => expanded(alloc, text.as_slice()),
        Err(error) => Err(stop_of(alloc, error)),
    }
}
