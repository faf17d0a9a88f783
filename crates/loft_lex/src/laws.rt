//! Laws of tokens. Each is what the contract of an empty function says.

ghost use Rattle.std.specs.Prelude.{◌≡◌, ◌↔◌, ℕ, List};
ghost use Rattle.loft_lex.specs.Tokens.{Found, tokens};
ghost use Rattle.loft_lex.specs.Cut.{Cut};

/// What is found in a text, of whatever length, is the one way to cut it that the page of the
/// language allows (docs/LANGUAGE.md, "Tokens").
pub fn tokens_are_cut()
    ensures { (text : List ℕ) (found : Found) → (tokens text ≡ found) ↔ Cut text found }
{}
