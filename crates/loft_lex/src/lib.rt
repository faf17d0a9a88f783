//! The tokens of a LOFT source (docs/LANGUAGE.md, "Tokens").
#![tactic(auto)]

mod front;
mod laws;
mod piece;
mod reading;
mod sign;
mod symbol;
mod token;
mod word;

ghost use Rattle.std.specs.Prelude.{◌≡◌, ◌≢◌, ◌≤◌, Ok, All, IfOk, IfErr, length};
ghost use Rattle.loft_lex.specs.Tokens.{tokens, IsFirstFault, Rising};
ghost use Rattle.loft_lex.specs.Fits.{Fits};
ghost use Rattle.loft_lex.specs.Symbol.{symbols, Unreadable};

use crate::front::{Step, next_step};
pub use laws::tokens_are_cut;
pub use reading::read_symbols;
pub use sign::Sign;
use std::alloc::Global;
pub use symbol::{Symbol, What, symbols};
pub use token::{LexError, Token, TokenKind, Tokens};
pub use word::Word;

/// The most bytes that a text may have: 4 MiB.
pub const MAX_TEXT_LEN: usize = 4194304;

/// The largest offset, which has 32 bits: the most bytes of a text that symbols can be read of.
pub const MAX_OFFSET: usize = 4294967295;

/// The tokens of a text.
///
/// # Errors
///
/// The first lexical fault of the text in reading order and its offset; `NoMemory` where the memory
/// for the tokens ran out, whatever the text is.
pub fn lex(alloc: Global, text: &[u8]) -> Result<Tokens, LexError>
    requires { length text.now ≤ MAX_TEXT_LEN }
    ensures found { IfOk result (λ ts. tokens text.now ≡ Ok ts) }
    ensures fault { IfErr result (IsFirstFault text.now) }
    ensures fits { IfOk result (All (Fits text.now)) }
    ensures rising { IfOk result (Rising 0) }
    ensures readable { IfOk result (λ ts. All (λ s. s.what ≢ Unreadable) (symbols text.now ts)) }
{
    let mut items = Vec::new(alloc);
    let mut at = 0;
    while at < text.len() {
        let (_, rest) = text.split_at(at);
        match next_step(rest) {
            Step::Gap(more) => at += more + 1,
            Step::Token { piece, more } => {
                let to = at + (more + 1);
                items.push(Token {
                    kind: piece.kind(),
                    from: at as u32,
                    to: to as u32,
                })?;
                at = to;
            }
            Step::Fault(error) => return Err(error.moved_by(at as u32)),
        }
    }
    Ok(Tokens::new(items))
}
