//! The bytes of a report, one after another.

ghost use Rattle.std.specs.Prelude.{◌≡◌, [], ◌∷◌, ◌++◌, true, false, OnOk, IfOk, IfSome, MatchOption};
ghost use Rattle.loft_compared.specs.Places.{text_at};
ghost use Rattle.loft_compared.specs.Walks.{here, left_of};

use crate::lines::{push_choice, push_options, push_scheduler};
use crate::place::{Piece, Place};
use loft_base::NoMemory;
use loft_value_text::LineBuffer;
use std::alloc::Global;

/// What comes after these bytes in a text that begins with them; none if it doesn't.
#[tactic(auto, using(crate::proofs::Skipping::stripped))]
fn after<'a>(text: &'a [u8], bytes: &[u8]) -> Option<&'a [u8]>
    ensures { IfSome result (λ more. text.now ≡ bytes.now ++ more.now) }
{
    text.strip_prefix(bytes)
}

/// A walk over the bytes of a text. It is at a piece of it, which is a line that it has made or bytes as they are kept,
/// and knows the place after that.
#[derive(Drop)]
pub(crate) struct Walk<'a> {
    /// The line that was made last.
    line: LineBuffer,
    /// How many bytes of it are behind.
    at: usize,
    /// Bytes that are kept, from here on.
    bytes: &'a [u8],
    /// What is still to come after these.
    rest: Place<'a>,
}

impl<'a> Walk<'a> {
    /// A walk that begins at a place.
    pub fn new(alloc: Global, rest: Place<'a>) -> Walk<'a>
        ensures { left_of result ≡ text_at rest.entry }
    {
        Walk {
            line: LineBuffer::new(alloc),
            at: 0,
            bytes: &[],
            rest,
        }
    }

    /// Goes over the next byte of the piece at which it is; none at its end.
    fn next_here(&mut self) -> Option<u8>
        ensures byte { MatchOption result ((here self.old ≡ []) × (here self.new ≡ [])) (λ b. here self.old ≡ b ∷ here self.new) }
        ensures rest { self.new.rest ≡ self.old.rest }
    {
        if let Some(b) = self.line.text.get(self.at) {
            self.at += 1;
            return Some(*b);
        }
        let [b, more @ ..] = self.bytes else {
            return None;
        };
        self.bytes = more;
        Some(*b)
    }

    /// Goes to the next piece.
    fn enter(&mut self) -> Result<(), NoMemory>
        requires { here self.old ≡ [] }
        ensures left { OnOk result (left_of self.new ≡ text_at self.old.rest) }
        ensures some { OnOk result (here self.new ≡ [] → left_of self.new ≡ []) }
    {
        self.line.clear();
        self.at = 0;
        match self.rest.next() {
            Piece::Options(head) => push_options(&mut self.line, head),
            Piece::Choice(choice) => push_choice(&mut self.line, choice),
            Piece::Block(name) => push_scheduler(&mut self.line, name),
            Piece::Kept(bytes) => self.bytes = bytes,
        }
        self.line.whole()?;
        Ok(())
    }

    /// Goes over the next byte; none at the end.
    ///
    /// # Errors
    ///
    /// Out of memory for a line.
    pub fn next(&mut self) -> Result<Option<u8>, NoMemory>
        ensures { IfOk result (λ byte. MatchOption byte (left_of self.old ≡ []) (λ b. left_of self.old ≡ b ∷ left_of self.new)) }
    {
        if let Some(b) = self.next_here() {
            return Ok(Some(b));
        }
        self.enter()?;
        Ok(self.next_here())
    }

    /// Goes over these bytes, if what is still to come of the piece begins with them. Answers whether it does.
    #[tactic(auto, using(crate::proofs::Skipping::skipped))]
    pub fn skip(&mut self, bytes: &[u8]) -> bool
        ensures skipped { result ≡ true → left_of self.old ≡ bytes.now ++ left_of self.new }
        ensures stays { result ≡ false → left_of self.new ≡ left_of self.old }
    {
        if self.at < self.line.text.len() {
            return false;
        }
        let Some(more) = after(self.bytes, bytes) else {
            return false;
        };
        self.bytes = more;
        true
    }
}
