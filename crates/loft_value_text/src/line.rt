//! A line in the making.

ghost use Rattle.std.specs.Prelude.{◌≡◌, ◌<◌, ◌≤◌, ◌+◌, ◌/◌, ◌%◌, [], ◌∷◌, ◌++◌, length, vec_len, vec_capacity, true, IfOk};
ghost use Rattle.std.specs.Fmt.{decimal, signed_decimal};
ghost use Rattle.loft_value_text.specs.Buffer.{Adds};

use crate::writer::TextWriter;
use loft_base::NoMemory;
use loft_orders::Line;
use std::alloc::Global;

/// How many digits the largest number has.
const MOST_DIGITS: usize = 20;

/// A line in the making, and whether memory was enough for it so far. Who makes a line asks once,
/// when all of it was appended (`whole`, `into_line`). One buffer serves for many lines: a cleared
/// one keeps its room.
#[derive(Drop)]
pub struct LineBuffer {
    /// The bytes so far; where memory ran out some are missing.
    pub text: Vec<u8>,
    /// Whether memory was enough for all of the line so far.
    pub is_whole: bool,
}

impl LineBuffer {
    /// An empty line; it allocates nothing.
    pub fn new(alloc: Global) -> Self
        ensures whole { result.is_whole ≡ true }
        ensures text { result.text.items ≡ [] }
    {
        LineBuffer {
            text: Vec::new(alloc),
            is_whole: true,
        }
    }

    /// An empty line from now on, and a whole one; the room stays.
    pub fn clear(&mut self)
        ensures whole { self.new.is_whole ≡ true }
        ensures text { self.new.text.items ≡ [] }
    {
        self.text.clear();
        self.is_whole = true;
    }

    /// The bytes, if memory was enough for them.
    ///
    /// # Errors
    ///
    /// Out of memory: it ran out before.
    pub fn whole(&self) -> Result<&[u8], NoMemory>
        ensures whole { IfOk result (λ _. self.now.is_whole ≡ true) }
        ensures text { IfOk result (λ bytes. bytes.now ≡ self.now.text.items) }
    {
        if self.is_whole {
            Ok(self.text.as_slice())
        } else {
            Err(NoMemory)
        }
    }

    /// The bytes as a printed line, if memory was enough for them.
    ///
    /// # Errors
    ///
    /// Out of memory: it ran out before.
    pub fn into_line(self) -> Result<Line, NoMemory>
        ensures whole { IfOk result (λ _. self.is_whole ≡ true) }
        ensures text { IfOk result (λ line. line ≡ self.text.items) }
    {
        if self.is_whole {
            Ok(Line::from_vec(self.text))
        } else {
            Err(NoMemory)
        }
    }

    /// Appends bytes.
    #[inline(always)]
    pub fn bytes(&mut self, bytes: &[u8])
        ensures { Adds self.old self.new bytes.now }
    {
        match bytes {
            [byte] => self.byte(*byte),
            _ => self.many_bytes(bytes),
        }
    }

    /// Appends bytes at once.
    fn many_bytes(&mut self, bytes: &[u8])
        ensures { Adds self.old self.new bytes.now }
    {
        match self.text.extend_from_slice(bytes) {
            Ok(()) => {}
            Err(_) => self.is_whole = false,
        }
    }

    /// Appends a byte.
    #[inline(always)]
    pub fn byte(&mut self, byte: u8)
        ensures { Adds self.old self.new (byte ∷ []) }
    {
        if self.text.len() < self.text.capacity() {
            self.text.push_reserved(byte);
        } else {
            self.push(byte);
        }
    }

    /// Appends a byte, and asks for more room where there is none.
    #[inline(never)]
    fn push(&mut self, byte: u8)
        ensures { Adds self.old self.new (byte ∷ []) }
    {
        match self.text.push(byte) {
            Ok(()) => {}
            Err(_) => self.is_whole = false,
        }
    }

    /// Appends a text.
    #[inline(always)]
    pub fn text(&mut self, text: &str)
        ensures { Adds self.old self.new text.now }
    {
        self.bytes(text.as_bytes());
    }

    /// Appends the digits of a number.
    #[inline(always)]
    pub fn number(&mut self, number: u64)
        ensures { Adds self.old self.new (decimal number) }
    {
        if number < 10 {
            self.byte(digit(number));
        } else {
            self.long_number(number);
        }
    }

    /// Appends the digits of a number; room for them is asked for once.
    #[tactic(auto, using(crate::proofs::DigitLemmas::most_digits))]
    fn long_number(&mut self, number: u64)
        ensures { Adds self.old self.new (decimal number) }
    {
        match self.text.reserve(MOST_DIGITS) {
            Ok(()) => push_digits(&mut self.text, number),
            Err(_) => self.is_whole = false,
        }
    }

    /// Appends the digits of a number, after a sign where it is negative.
    #[inline(always)]
    pub fn signed(&mut self, number: i64)
        ensures { Adds self.old self.new (signed_decimal number) }
    {
        if number < 0 {
            self.byte(b'-');
        }
        self.number(number.unsigned_abs());
    }
}

/// The digit of a number below 10.
#[inline(always)]
fn digit(number: u64) -> u8
    requires { number < 10 }
    ensures { result ≡ 48 + number }
{
    b'0' + number as u8
}

/// Appends two digits, of which the first may be 0, where there is room for them.
#[inline(always)]
fn push_two_digits(text: &mut Vec<u8>, number: u64)
    requires number { number < 100 }
    requires room { vec_len text.old + 2 ≤ vec_capacity text.old }
    ensures items { text.new.items ≡ text.old.items ++ (48 + number / 10) ∷ (48 + number % 10) ∷ [] }
    ensures len { vec_len text.new ≡ vec_len text.old + 2 }
    ensures capacity { vec_capacity text.new ≡ vec_capacity text.old }
{
    text.push_reserved(digit(number / 10));
    text.push_reserved(digit(number % 10));
}

/// Appends the digits of a number, where there is room for them.
#[tactic(auto, using(crate::proofs::DigitLemmas::one_digit, crate::proofs::DigitLemmas::two_digits, crate::proofs::DigitLemmas::more_by_two))]
fn push_digits(text: &mut Vec<u8>, number: u64)
    requires room { vec_len text.old + length (decimal number) ≤ vec_capacity text.old }
    ensures items { text.new.items ≡ text.old.items ++ decimal number }
    ensures len { vec_len text.new ≡ vec_len text.old + length (decimal number) }
    ensures capacity { vec_capacity text.new ≡ vec_capacity text.old }
{
    if number < 10 {
        text.push_reserved(digit(number));
    } else if number < 100 {
        push_two_digits(text, number);
    } else {
        push_digits(text, number / 100);
        push_two_digits(text, number % 100);
    }
}

impl TextWriter for LineBuffer {
    ghost use Rattle.std.specs.Prelude.{ℕ, List, ◌++◌};
    ghost use Rattle.std.proofs.Common.{sym, append-nil, append_assoc};

    ghost Kept = { List ℕ };

    ghost kept = { λ line. line.text.items };

    ghost extended = { λ text bytes. text ++ bytes };

    ghost is_whole = { λ line. line.is_whole };

    #[inline(always)]
    fn bytes(&mut self, bytes: &[u8]) {
        LineBuffer::bytes(self, bytes);
    }

    #[inline(always)]
    fn byte(&mut self, byte: u8) {
        LineBuffer::byte(self, byte);
    }

    #[inline(always)]
    fn text(&mut self, text: &str) {
        LineBuffer::text(self, text);
    }

    #[inline(always)]
    fn number(&mut self, number: u64) {
        LineBuffer::number(self, number);
    }

    #[inline(always)]
    fn signed(&mut self, number: i64) {
        LineBuffer::signed(self, number);
    }

    ghost nothing = { λ line. append-nil line.text.items };

    ghost together = { λ text a b. sym (append_assoc text a b) };
}
