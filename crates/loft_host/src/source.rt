//! The code of a source that is kept as text.

ghost use Rattle.std.specs.Prelude.{IfOk, IfErr};
ghost use Rattle.loft_host.specs.Sources.{IsCodeOf, IsCause};

use loft_code::Code;
use loft_compile::compile;
use loft_names::resolve;
use loft_parse::{ParseError, parse};
use loft_place::{PlaceError, place};
use loft_scopes::NameError;
use std::alloc::Global;

/// Why there is no code of a text. The offsets in it are those of the text.
#[derive(Clone, Copy, Debug, PartialEq, Eq)]
pub enum SourceError {
    /// It is no program (docs/LANGUAGE.md, "Grammar").
    Text(ParseError),
    /// A name or a kind is wrong (docs/LANGUAGE.md, "Names").
    Names(NameError),
    /// A thread isn't linked where a statement needs it (docs/LANGUAGE.md, "Links").
    Links(PlaceError),
    /// Out of memory for the code. Each of the others can tell of a want of memory, too.
    NoMemory,
}

/// The code of a text (docs/CODE.md, "The compiler's code").
///
/// # Errors
///
/// The first fault of the text, of its names or of its links; or out of memory.
pub fn code_of(alloc: Global, text: &[u8]) -> Result<Code, SourceError>
    ensures code { IfOk result (IsCodeOf text.now) }
    ensures cause { IfErr result (IsCause text.now) }
{
    let program = match parse(alloc, text) {
        Ok(program) => program,
        Err(error) => return Err(SourceError::Text(error)),
    };
    let named = match resolve(alloc, program) {
        Ok(named) => named,
        Err(error) => return Err(SourceError::Names(error)),
    };
    let placed = match place(alloc, named) {
        Ok(placed) => placed,
        Err(error) => return Err(SourceError::Links(error)),
    };
    match compile(alloc, &placed) {
        Ok(code) => Ok(code),
        Err(_) => Err(SourceError::NoMemory),
    }
}
