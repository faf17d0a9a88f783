//! The first line of a text.

ghost use Rattle.std.specs.Prelude.{◌≡◌, ℕ, List, ◌++◌, IfSome, MatchOption};
ghost use Rattle.loft_listing_line.specs.Feeds.{EndsAtItsFeed};

use crate::cut::first_of;

/// The first line of a text, up to its line feed and with it, and what stands after it; nothing where
/// the text has no line feed.
pub fn first_line(text: &[u8]) -> Option<(&[u8], &[u8])>
    ensures cut { IfSome result (λ p. EndsAtItsFeed p.0.now × (text.now ≡ p.0.now ++ p.1.now)) }
    ensures only { (line rest : List ℕ) → EndsAtItsFeed line → text.now ≡ line ++ rest
        → MatchOption result ⊥ (λ p. (p.0.now ≡ line) × (p.1.now ≡ rest)) }
{
    let index = first_of(text, b'\n')?;
    Some((&text[..index + 1], &text[index + 1..]))
}
