//! Names in a source.

ghost use Rattle.std.specs.Prelude.{◌≡◌, IfOk};

use std::alloc::{AllocError, Global};
use std::marker::Model;

/// A name in a source, and the byte where it begins.
#[derive(Drop)]
pub struct Ident {
    text: Vec<u8>,
    at: u32,
}

impl Model for Ident {
    ghost use Rattle.loft_tree.specs.Source.{Ident};

    ghost Value = { Ident };

    ghost view = { λ i. record { text = i.text.items; at = i.at } };
}

impl Ident {
    /// The name with these bytes, which begins at the byte `at` of the text.
    pub fn new(text: Vec<u8>, at: u32) -> Ident
        ensures name { result.text ≡ text.items }
        ensures place { result.at ≡ at }
    {
        Ident { text, at }
    }

    /// A copy of the name, with its offset; `AllocError` where it is out of memory.
    pub fn copy(&self, alloc: Global) -> Result<Ident, AllocError>
        ensures { IfOk result (λ copy. copy ≡ self.now) }
    {
        Ok(Ident {
            text: Vec::from_slice(alloc, self.text.as_slice())?,
            at: self.at,
        })
    }

    /// The bytes of the name.
    pub fn text(&self) -> &[u8]
        ensures { result.now ≡ self.now.text }
    {
        self.text.as_slice()
    }

    /// The byte of the source where the name begins.
    pub fn at(&self) -> u32
        ensures { result ≡ self.now.at }
    {
        self.at
    }
}
