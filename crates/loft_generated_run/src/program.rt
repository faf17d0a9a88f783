//! The program of a generated source, in memory.

ghost use Rattle.std.specs.Prelude.{◌≡◌, ◌≤◌, IfOk};
ghost use Rattle.loft_tree.specs.ProgramView.{program_of};
ghost use Rattle.loft_tree.specs.Resolved.{resolved_of};
ghost use Rattle.loft_numbers.specs.Numbers.{numbered};
ghost use Rattle.loft_generated.specs.Walks.{walks_of};

use loft_base::NoMemory;
use loft_gen::source_of;
use loft_generated::generated_sources_are_correct;
use loft_names::resolve;
use loft_parse::parse;
use loft_place::{Placed, place};
use std::alloc::Global;

/// The program of a generated source, made from its text. The text has no fault, and names, kinds
/// and links are correct (`generated_sources_are_correct`): each call fails only without memory.
pub(crate) fn generated_program(alloc: Global, k: u32) -> Result<Placed, NoMemory>
    requires some { 1 ≤ k }
    requires few { k ≤ 1000 }
    ensures { IfOk result (λ placed. resolved_of (program_of placed)
        ≡ resolved_of (numbered (walks_of k))) }
{
    generated_sources_are_correct();
    let text = source_of(alloc, k)?;
    let Ok(program) = parse(alloc, text.as_slice()) else {
        return Err(NoMemory);
    };
    let Ok(named) = resolve(alloc, program) else {
        return Err(NoMemory);
    };
    match place(alloc, named) {
        Ok(placed) => Ok(placed),
        Err(_) => Err(NoMemory),
    }
}
