//! What a text is appended to.

ghost use Rattle.std.specs.Prelude.{◌≡◌, ◌++◌, ℕ, List, [], ◌∷◌, Bool};
ghost use Rattle.std.specs.Fmt.{decimal, signed_decimal};
ghost use Rattle.loft_value_text.specs.Appending.{Appends};

/// What a text is appended to, piece by piece: a line keeps its bytes (`LineBuffer`), a length
/// their number alone (`TextLength`). What writes a text is generic over it, so that each text is
/// written by one function, and measured by the same.
pub trait TextWriter {
    /// What is kept of a text.
    ghost Kept: { Type 0 };

    /// What is kept of the text so far.
    ghost kept: { Self → Kept };

    /// What is kept with further bytes.
    ghost extended: { Kept → List ℕ → Kept };

    /// Whether memory was enough so far.
    ghost is_whole: { Self → Bool };

    /// Appends bytes.
    fn bytes(&mut self, bytes: &[u8])
        ensures { Appends is_whole kept extended self.old self.new bytes.now };

    /// Appends a byte.
    fn byte(&mut self, byte: u8)
        ensures { Appends is_whole kept extended self.old self.new (byte ∷ []) };

    /// Appends a text.
    fn text(&mut self, text: &str)
        ensures { Appends is_whole kept extended self.old self.new text.now };

    /// Appends the digits of a number.
    fn number(&mut self, number: u64)
        ensures { Appends is_whole kept extended self.old self.new (decimal number) };

    /// Appends the digits of a number, after a sign where it is negative.
    fn signed(&mut self, number: i64)
        ensures { Appends is_whole kept extended self.old self.new (signed_decimal number) };

    /// No bytes change nothing.
    ghost nothing: { (w : Self) → extended (kept w) [] ≡ kept w };

    /// Bytes and then others are both together.
    ghost together: { (k : Kept) (a b : List ℕ) → extended k (a ++ b) ≡ extended (extended k a) b };
}
