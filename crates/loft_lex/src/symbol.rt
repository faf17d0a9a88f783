//! Tokens as a grammar sees them.

ghost use Rattle.std.specs.Prelude.{◌≡◌, All, IfOk, map, slice_range};
ghost use Rattle.loft_lex.specs.Fits.{Fits, IsOfKind, between_quotes};
ghost use Rattle.loft_lex.specs.Symbol.{symbol_of, symbols};
ghost use Rattle.loft_lex.specs.Seen.{symbol_seen};

use crate::sign::Sign;
use crate::token::{Token, TokenKind};
use crate::word::Word;
use std::alloc::{AllocError, Global};

/// What a token is, with what its bytes say.
#[derive(Clone, Copy)]
pub enum What<'a> {
    /// A name, with its bytes.
    Name(&'a [u8]),
    /// A word of the language.
    Word(Word),
    /// A number, which is never negative.
    Number(i64),
    /// A text, with the bytes between its quotes.
    Text(&'a [u8]),
    /// A sign of the language.
    Sign(Sign),
}

/// A token as a grammar sees it.
#[derive(Clone, Copy)]
pub struct Symbol<'a> {
    /// What it is.
    pub what: What<'a>,
    /// The offset of its first byte in the text, from 0.
    pub at: u32,
}

/// The bytes between the quotes of a text.
pub fn inside(quoted: &[u8]) -> &[u8]
    ensures { result.now ≡ between_quotes quoted.now }
{
    let (_, after_quote) = quoted.split_at(quoted.len().min(1));
    let (bytes, _) = after_quote.split_at(quoted.len().saturating_sub(2));
    bytes
}

/// A token of the text as a symbol.
fn symbol_of<'a>(text: &'a [u8], token: Token) -> Symbol<'a>
    requires { IsOfKind token.kind (slice_range text.now token.from token.to) }
    ensures { symbol_seen result ≡ symbol_of text.now token }
{
    let bytes = token.bytes(text);
    let what = match token.kind {
        TokenKind::Name => What::Name(bytes),
        TokenKind::Word => match Word::of(bytes) {
            Some(word) => What::Word(word),
            None => unreachable!(),
        },
        TokenKind::Number(value) => What::Number(value),
        TokenKind::Text => What::Text(inside(bytes)),
        TokenKind::Sign => match Sign::of(bytes) {
            Some(sign) => What::Sign(sign),
            None => unreachable!(),
        },
    };
    Symbol {
        what,
        at: token.from,
    }
}

/// The symbols of a text's tokens, in reading order. Names and texts share the text's bytes.
///
/// # Errors
///
/// Out of memory for the symbols.
pub fn symbols<'a>(
    alloc: Global,
    text: &'a [u8],
    tokens: &[Token],
) -> Result<Vec<Symbol<'a>>, AllocError>
    requires { All (Fits text.now) tokens.now }
    ensures { IfOk result (λ found. map symbol_seen found.items ≡ symbols text.now tokens.now) }
{
    let mut found = Vec::with_capacity(alloc, tokens.len())?;
    for token in tokens {
        found.push(symbol_of(text, *token))?;
    }
    Ok(found)
}
