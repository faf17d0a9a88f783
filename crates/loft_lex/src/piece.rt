//! What a token at the front of a text is.

ghost use Rattle.std.specs.Prelude.{◌≡◌};
ghost use Rattle.loft_lex.specs.Scan.{kind_seen, says};
ghost use Rattle.loft_lex.specs.Seen.{what_seen};

use crate::sign::Sign;
use crate::symbol::{What, inside};
use crate::token::TokenKind;
use crate::word::Word;

/// What a token is, with the word or the sign that its bytes spell.
#[derive(Clone, Copy)]
pub enum Piece {
    Name,
    Word(Word),
    Number(i64),
    Text,
    Sign(Sign),
}

impl Piece {
    /// The kind of the token.
    pub fn kind(self) -> TokenKind
        ensures { result ≡ kind_seen self }
    {
        match self {
            Piece::Name => TokenKind::Name,
            Piece::Word(_) => TokenKind::Word,
            Piece::Number(value) => TokenKind::Number(value),
            Piece::Text => TokenKind::Text,
            Piece::Sign(_) => TokenKind::Sign,
        }
    }

    /// What the token is to a grammar, where these are its bytes.
    pub fn what(self, bytes: &[u8]) -> What<'_>
        ensures { what_seen result ≡ says self bytes.now }
    {
        match self {
            Piece::Name => What::Name(bytes),
            Piece::Word(word) => What::Word(word),
            Piece::Number(value) => What::Number(value),
            Piece::Text => What::Text(inside(bytes)),
            Piece::Sign(sign) => What::Sign(sign),
        }
    }
}
