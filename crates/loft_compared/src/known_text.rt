//! The text with which a report is compared, for proofs alone.

ghost use Rattle.std.specs.Prelude.{ℕ, List, []};

use std::marker::Brand;

/// A text that is known. It has no code: proofs name by it the text with which a comparison compares.
pub trait KnownText {
    /// The text.
    ghost text: { List ℕ };
}

impl KnownText for Brand {
    ghost text = { [] };
}
