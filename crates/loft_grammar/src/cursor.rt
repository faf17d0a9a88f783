//! Where a reader stands.

ghost use Rattle.std.specs.Prelude.{◌≡◌, None};

use crate::counts::{Counted, Counts};
use loft_lex::Symbol;

/// What is left to read of a text, and what was counted so far.
#[derive(Clone, Copy)]
pub struct Cursor<'a> {
    /// The symbols that are left.
    pub symbols: &'a [Symbol<'a>],
    /// How many of each there were.
    pub counts: Counts,
    /// What the next symbol counts as, besides what the form that it begins says.
    pub due: Option<Counted>,
}

impl<'a> Cursor<'a> {
    /// The cursor where these symbols are left, so much was counted, and nothing is due.
    pub fn after(symbols: &'a [Symbol<'a>], counts: Counts) -> Cursor<'a>
        ensures { result ≡ record { symbols = symbols.entry; counts = counts; due = None } }
    {
        Cursor {
            symbols,
            counts,
            due: None,
        }
    }
}
