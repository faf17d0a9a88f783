//! A small program as code, made from its text.

use loft_base::NoMemory;
use loft_code::Code;
use loft_compile::compile;
use loft_names::resolve;
use loft_parse::parse;
use loft_place::{Placed, place};
use std::alloc::Global;

/// A thread waits for an event that a client of the source broadcasts.
const SOURCE: &[u8] =
    b"scheduler A; event e in A; module w() in A await e; print \"hit\"; end start A.w(); outside c { broadcast e; }";

/// The program of the text; none where the text is at fault, or memory was refused.
fn placed(alloc: Global) -> Option<Placed> {
    let program = parse(alloc, SOURCE).ok()?;
    let named = resolve(alloc, program).ok()?;
    place(alloc, named).ok()
}

/// The program. `NoMemory` comes where there is none.
pub(crate) fn code(alloc: Global) -> Result<Code, NoMemory> {
    match placed(alloc) {
        Some(placed) => compile(alloc, &placed),
        None => Err(NoMemory),
    }
}
