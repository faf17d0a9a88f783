//! The count of steps.

ghost use Rattle.std.specs.Prelude.{◌≡◌, ◌+◌, ◌<◌, ◌^◌};

use std::marker::Model;
use std::sync::ledger::{Blank, Book, Ledger, Share};

/// How many steps were made. Only `tick` changes it.
#[derive(Drop)]
pub struct Steps<L: Ledger> {
    /// The same as a number, modulo 2^64.
    made: u64,
    book: Book<L>,
    share: Share<L>,
}

impl<L: Ledger> Model for Steps<L> {
    ghost use Rattle.std.specs.Prelude.{◌≡◌, ℕ, ◌<◌, ◌^◌};

    ghost Value = { ℕ };

    ghost view = { λ s. s.book.total };

    ghost invariant = { λ s. (0 < s.share.parts) × (s.book.total < 2 ^ 64 → s.made ≡ s.book.total) };
}

impl<L: Ledger> Steps<L> {
    /// A count that has none so far.
    pub fn new(blank: Blank) -> Steps<L>
        requires name { blank.name ≡ L.name }
        requires parts { blank.parts ≡ L.parts }
        requires some { 0 < L.parts }
        ensures { result ≡ 0 }
    {
        let (book, share) = blank.open();
        Steps {
            made: 0,
            book,
            share,
        }
    }

    /// One more.
    pub fn tick(&mut self)
        ensures { self.new ≡ self.old + 1 }
    {
        self.made = self.made.wrapping_add(1);
        self.book.add(&mut self.share, 1);
    }

    /// How many there are so far, where they are fewer than 2^64.
    pub fn made(&self) -> u64
        ensures { self.now < 2 ^ 64 → result ≡ self.now }
    {
        self.made
    }
}
