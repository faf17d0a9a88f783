//! Why a text is no program.

ghost use Rattle.std.specs.Prelude.{◌≡◌};
ghost use Rattle.loft_parse.specs.declared.error.ParseError.TheVariants.{NoMemory};

use loft_lex::LexError;
use std::alloc::AllocError;

/// Why a text is no program. A place in it is a byte offset, from 0.
#[derive(Clone, Copy, Debug, PartialEq, Eq)]
pub enum ParseError {
    /// The first fault of the text's tokens (docs/LANGUAGE.md, "Tokens").
    Lex(LexError),
    /// No program goes on so: the offset of the first token that may not stand there, or of the text's end.
    Expected(u32),
    /// The offset of the token that opens a 33rd nesting.
    TooDeep(u32),
    /// The offset of the first token of a thing that is one too many, and how many there may be.
    TooMany { at: u32, limit: u32 },
    /// The text has more than 4 MiB.
    TooLong,
    /// Out of memory for the tokens or the program, whatever the text is.
    NoMemory,
}

impl From<AllocError> for ParseError {
    ghost from_gives = { λ _ e. e ≡ NoMemory };

    fn from(_e: AllocError) -> ParseError {
        ParseError::NoMemory
    }
}
