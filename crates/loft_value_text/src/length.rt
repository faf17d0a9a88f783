//! The length of a text.

ghost use Rattle.std.specs.Prelude.{◌≡◌, ◌≤◌, ◌+◌, ◌-◌, ◌^◌, min, length};
ghost use Rattle.std.specs.Fmt.{decimal};

use crate::writer::TextWriter;

/// How long a text is, of which nothing else is kept. A sum that would pass the end of `u64` stays
/// there. It takes no memory.
#[derive(Drop)]
pub struct TextLength {
    /// How many bytes were appended, or the largest number where there were more.
    pub count: u64,
    pub ghost fits: { count ≤ 2 ^ 64 - 1 },
}

impl TextLength {
    /// The length of the empty text.
    pub fn new() -> Self
        ensures { result.count ≡ 0 }
    {
        TextLength { count: 0 }
    }

    /// So many bytes more.
    fn add(&mut self, more: u64)
        ensures { self.new.count ≡ min (2 ^ 64 - 1) (self.old.count + more) }
    {
        self.count = self.count.saturating_add(more);
    }
}

/// How many digits a number has.
#[tactic(auto, using(crate::proofs::DigitLemmas::one_digit, crate::proofs::DigitLemmas::two_digits, crate::proofs::DigitLemmas::three_digits, crate::proofs::DigitLemmas::four_digits, crate::proofs::DigitLemmas::more_digits))]
fn digits(number: u64) -> u64
    ensures count { result ≡ length (decimal number) }
    ensures few { result ≤ number + 1 }
{
    if number < 10 {
        1
    } else if number < 100 {
        2
    } else if number < 1_000 {
        3
    } else if number < 10_000 {
        4
    } else {
        digits(number / 10_000) + 4
    }
}

impl TextWriter for TextLength {
    ghost use Rattle.std.specs.Prelude.{ℕ, true};
    ghost use Rattle.loft_value_text.specs.Appending.{lengthened};
    ghost use Rattle.loft_value_text.specs.LengthLaws.{stays, stops_once};

    ghost Kept = { ℕ };

    ghost kept = { λ w. w.count };

    ghost extended = { lengthened };

    ghost is_whole = { λ _. true };

    fn bytes(&mut self, bytes: &[u8]) {
        self.add(bytes.len() as u64);
    }

    fn byte(&mut self, _byte: u8) {
        self.add(1);
    }

    fn text(&mut self, text: &str) {
        self.add(text.len() as u64);
    }

    fn number(&mut self, number: u64) {
        self.add(digits(number));
    }

    fn signed(&mut self, number: i64) {
        if number < 0 {
            self.add(1);
        }
        self.add(digits(number.unsigned_abs()));
    }

    ghost nothing = { λ w. stays w.count w.fits };

    ghost together = { stops_once };
}
