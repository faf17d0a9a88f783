//! The symbols of a text, without a list of its tokens.

ghost use Rattle.std.specs.Prelude.{◌≤◌, IfOk, IfErr, length};
ghost use Rattle.loft_lex.specs.TextSymbols.{symbols_seen, SymbolsOf};
ghost use Rattle.loft_lex.specs.Tokens.{IsFirstFault};

use crate::MAX_OFFSET;
use crate::front::{Step, next_step};
use crate::symbol::Symbol;
use crate::token::LexError;
use std::alloc::Global;

/// The symbols of a text's tokens, in reading order. Names and texts share the text's bytes.
///
/// # Errors
///
/// The first lexical fault of the text in reading order and its offset; `NoMemory` where the memory
/// for the symbols ran out, whatever the text is.
pub fn read_symbols<'a>(alloc: Global, text: &'a [u8]) -> Result<Vec<Symbol<'a>>, LexError>
    requires { length text.now ≤ MAX_OFFSET }
    ensures found { IfOk result (λ found. SymbolsOf text.now (symbols_seen found.items)) }
    ensures fault { IfErr result (IsFirstFault text.now) }
{
    let mut found = Vec::new(alloc);
    let mut at = 0;
    while at < text.len() {
        let (_, rest) = text.split_at(at);
        match next_step(rest) {
            Step::Gap(more) => at += more + 1,
            Step::Token { piece, more } => {
                let (bytes, _) = rest.split_at(more + 1);
                found.push(Symbol {
                    what: piece.what(bytes),
                    at: at as u32,
                })?;
                at += more + 1;
            }
            Step::Fault(error) => return Err(error.moved_by(at as u32)),
        }
    }
    Ok(found)
}
