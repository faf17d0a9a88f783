//! The code of the listing in a file.

ghost use Rattle.std.specs.Prelude.{◌≡◌, ◌≤◌, ℕ, List, Some, length, IfOk, IfErr, IsErrOf, IsTrue};
ghost use Rattle.loft_base.specs.Outside.{Rose};
ghost use Rattle.loft_code.specs.View.{automata_of};
ghost use Rattle.loft_listing_draft.specs.declared.draft.TheConstants.{MAX_LISTING_LEN};
ghost use Rattle.loft_refusal.specs.Refusals.{IsListingOf};
ghost use Rattle.loft_refusal.specs.Found.{IsUnlisted};
ghost use Rattle.loft_refusal.specs.Stops.{stop_of_listing_file};

use crate::refusal::{Refusal, Stopped};
use loft_base::{FileError, Files, read_whole};
use loft_code::{Code, validate};
use loft_listing_draft::MAX_LISTING_LEN;
use loft_listing_reader::{ListError, read};
use loft_mutex::module_names;
use std::alloc::Global;

/// The valid code of a listing; else why there is none.
fn code_in(alloc: Global, text: &[u8]) -> Result<Code, Stopped>
    requires { length text.now ≤ MAX_LISTING_LEN }
    ensures code { IfOk result (λ c. IsListingOf text.now (automata_of c)) }
    ensures refused { IfErr result (IsUnlisted text.now) }
    ensures no_file { IfErr result (λ e. e ≡ Stopped.FileFault → ⊥) }
{
    let raw = read(alloc, text)?;
    let modules = module_names(alloc, &raw.program().heads)?;
    match validate(alloc, raw) {
        Ok(code) => Ok(code),
        Err(fault) => Err(Stopped::Refused(Refusal::Code { fault, modules })),
    }
}

/// Why no listing can be read from a file.
fn stop_of(error: FileError) -> Stopped
    ensures { result ≡ stop_of_listing_file error }
{
    match error {
        FileError::Failed => Stopped::FileFault,
        FileError::TooLong => Stopped::Refused(Refusal::Listing(ListError::TooLong)),
        FileError::NoMemory => Stopped::NoMemory,
    }
}

/// Reads the valid code of the listing in a file.
pub fn read_code<F: Files>(alloc: Global, files: &mut F, name: &str) -> Result<Code, Stopped>
    requires { IsTrue (F.may_ask files.old name.now) }
    ensures code { (contents : List ℕ) → F.contents files.old name.now ≡ Some contents
        → IfOk result (λ c. IsListingOf contents (automata_of c)) }
    ensures refused { (contents : List ℕ) → F.contents files.old name.now ≡ Some contents
        → IfErr result (IsUnlisted contents) }
    ensures file_fault { IsErrOf result Stopped.FileFault → Rose (F.faults files.old) (F.faults files.new) }
    ensures no_sink { IfErr result (λ e. e ≡ Stopped.SinkFault → ⊥) }
    ensures never_falls { F.faults files.old ≤ F.faults files.new }
    ensures sure { IsTrue (F.never_fails files.old name.now) → IfErr result (λ e. e ≡ Stopped.FileFault → ⊥) }
    ensures no_fault { IsTrue (F.never_fails files.old name.now) → F.faults files.new ≡ F.faults files.old }
{
    match read_whole(alloc, files, name, MAX_LISTING_LEN as u64) {
        Ok(text) => code_in(alloc, text.as_slice()),
        Err(error) => Err(stop_of(error)),
    }
}
