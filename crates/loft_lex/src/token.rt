//! The tokens of a text, and what can be wrong with it.

ghost use Rattle.std.specs.Prelude.{◌≡◌, ◌+◌, ◌<◌, ◌^◌, slice_range};
ghost use Rattle.loft_lex.specs.declared.token.LexError.TheVariants.{NoMemory};

use std::alloc::{AllocError, AllocFailed};
use std::marker::Model;

/// What a token is (docs/LANGUAGE.md, "Tokens"). Its bytes say which name, word, text or sign.
#[derive(Clone, Copy)]
pub enum TokenKind {
    /// A letter or `_`, then letters, digits and `_`: no word of the language.
    Name,
    /// A word of the language: `Word::of` says which.
    Word,
    /// A number and its value, which is never negative.
    Number(i64),
    /// A text with its two quotes.
    Text,
    /// A sign of the language: `Sign::of` says which.
    Sign,
}

/// A token of a text: its bytes are those from `from` up to and without `to`.
#[derive(Clone, Copy)]
pub struct Token {
    /// What it is.
    pub kind: TokenKind,
    /// The offset of its first byte, from 0.
    pub from: u32,
    /// The offset after its last byte.
    pub to: u32,
}

impl Token {
    /// The bytes of the token in its text; those that the text has, where it is another text.
    pub fn bytes(self, text: &[u8]) -> &[u8]
        ensures { result.now ≡ slice_range text.now self.from self.to }
    {
        let to = text.len().min(self.to as usize);
        let from = to.min(self.from as usize);
        &text[from..to]
    }
}

/// The first lexical fault of a text and its offset, in bytes from 0; or out of memory.
#[derive(Clone, Copy, Debug, PartialEq, Eq)]
pub enum LexError {
    /// This byte begins no token, or may not stand in a text.
    BadByte(u32),
    /// The text that begins here has no closing quote on its line.
    OpenText(u32),
    /// The name that begins here has more than 64 bytes.
    LongName(u32),
    /// The text that begins here has more than 120 bytes between its quotes.
    LongText(u32),
    /// The number that begins here is above 9223372036854775807, or a letter or `_` follows it.
    BadNumber(u32),
    /// Out of memory for the tokens.
    NoMemory,
}

impl LexError {
    ghost use Rattle.loft_lex.specs.Tokens.{fault_moved};
    ghost use Rattle.loft_lex.specs.Scan.{fault_place};

    /// The fault with `n` bytes put before the text.
    pub(crate) fn moved_by(self, n: u32) -> LexError
        requires { n + fault_place self < 2 ^ 32 }
        ensures { result ≡ fault_moved n self }
    {
        match self {
            LexError::BadByte(at) => LexError::BadByte(n + at),
            LexError::OpenText(at) => LexError::OpenText(n + at),
            LexError::LongName(at) => LexError::LongName(n + at),
            LexError::LongText(at) => LexError::LongText(n + at),
            LexError::BadNumber(at) => LexError::BadNumber(n + at),
            LexError::NoMemory => LexError::NoMemory,
        }
    }
}

impl From<AllocError> for LexError {
    ghost from_gives = { λ _ e. e ≡ NoMemory };

    fn from(_e: AllocError) -> LexError {
        LexError::NoMemory
    }
}

impl<T: Drop> From<AllocFailed<T>> for LexError {
    ghost from_gives = { λ _ e. e ≡ NoMemory };

    fn from(_e: AllocFailed<T>) -> LexError {
        LexError::NoMemory
    }
}

/// The tokens of a text, in reading order.
#[derive(Drop)]
pub struct Tokens {
    items: Vec<Token>,
}

impl Model for Tokens {
    ghost use Rattle.std.specs.Prelude.{List};
    ghost use Rattle.loft_lex.specs.declared.token.Token.{Token};

    ghost Value = { List Token };

    ghost view = { λ tokens. tokens.items.items };
}

impl Tokens {
    /// The list round these items.
    pub(crate) fn new(items: Vec<Token>) -> Tokens
        ensures { result ≡ items.items }
    {
        Tokens { items }
    }

    /// The tokens as a slice.
    pub fn as_slice(&self) -> &[Token]
        ensures { result.now ≡ self.now }
    {
        self.items.as_slice()
    }
}
