//! Texts cut at their blanks, and numbers in them.

ghost use Rattle.std.specs.Prelude.{◌≡◌, ℕ, ◌<◌, ◌==◌, List, ◌∷◌, ◌++◌, Some, IfSome, MatchOption, length};
ghost use Rattle.std.specs.Fmt.{decimal};
ghost use Rattle.std.specs.List.{position_from};
ghost use Rattle.loft_listing_line.specs.Cuts.{IsCutAt};
ghost use Rattle.loft_listing_line.specs.Instructions.{feed};
ghost use Rattle.loft_listing_line.specs.RowsFit.{IsSmall};

use std::str;

/// The largest number of a listing: 2^63 - 1.
const MAX_NUMBER: u64 = 9223372036854775807;

/// The index of the first of these bytes in the text.
pub fn first_of(text: &[u8], byte: u8) -> Option<usize>
    ensures within { IfSome result (λ index. index < length text.now) }
    ensures first { result ≡ position_from (λ b. b == byte) 0 text.now }
{
    text.iter().position(|b| *b == byte)
}

/// What stands before the first of these bytes in the text, and after it.
pub fn cut_at(text: &[u8], byte: u8) -> Option<(&[u8], &[u8])>
    ensures { (before after : List ℕ) → IsCutAt byte text.now before after
        → MatchOption result ⊥ (λ p. (p.0.now ≡ before) × (p.1.now ≡ after)) }
{
    let index = first_of(text, byte)?;
    Some((&text[..index], &text[index + 1..]))
}

/// The number that the digits spell, where it is at most 2^63 - 1.
pub fn number_in(digits: &[u8]) -> Option<u64>
    ensures found { (n : ℕ) → IsSmall n → digits.now ≡ decimal n → result ≡ Some n }
    ensures small { IfSome result IsSmall }
{
    let number = str::from_utf8(digits).ok()?.parse::<u64>().ok()?;
    if number <= MAX_NUMBER {
        Some(number)
    } else {
        None
    }
}

/// The number after a blank and what stands before it, and before a line feed.
pub fn number_at_end(text: &[u8]) -> Option<u64>
    ensures found { (n : ℕ) (before : List ℕ) → IsSmall n
        → IsCutAt 32 text.now before (decimal n ++ feed) → result ≡ Some n }
    ensures small { IfSome result IsSmall }
{
    let (_, rest) = cut_at(text, b' ')?;
    let (digits, _) = cut_at(rest, b'\n')?;
    number_in(digits)
}

/// The number before a blank, and what stands after it.
pub fn number_before(text: &[u8]) -> Option<(u64, &[u8])>
    ensures found { (n : ℕ) (after : List ℕ) → IsSmall n → text.now ≡ decimal n ++ 32 ∷ after
        → MatchOption result ⊥ (λ p. (p.0 ≡ n) × (p.1.now ≡ after)) }
    ensures small { IfSome result (λ p. IsSmall p.0) }
{
    let (digits, rest) = cut_at(text, b' ')?;
    Some((number_in(digits)?, rest))
}
