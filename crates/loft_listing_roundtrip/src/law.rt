//! The laws of round trips.

ghost use Rattle.std.specs.Prelude.{◌≡◌, ℕ, List};
ghost use Rattle.loft_code.specs.Fits.{RawFits};
ghost use Rattle.loft_code.specs.Operations.{Automata};
ghost use Rattle.loft_code.specs.Valid.{Valid};
ghost use Rattle.loft_translation.specs.Compiled.{compiled};
ghost use Rattle.loft_listing.specs.Listing.{listing_text};
ghost use Rattle.loft_scopes.specs.Faults.{NamesFit};
ghost use Rattle.loft_numbers.specs.Numbers.{numbered};
ghost use Rattle.loft_place.specs.Links.{IsPlaced};
ghost use Rattle.loft_listing_reader.specs.Lists.{LineFault, Lists};
ghost use Rattle.loft_listing_roundtrip.specs.ThreadsNamed.{ThreadsNamed};
ghost use Rattle.loft_tree.specs.Fits.{SourceFits};
ghost use Rattle.loft_tree.specs.Resolved.{resolved_of};
ghost use Rattle.loft_tree.specs.Source.{Source};

/// What is written of valid code, whose threads in arguments and orders have names, is a listing of
/// the code (docs/CODE.md, "Listings that are read").
pub fn written_code_is_listed()
    ensures { (c : Automata) → RawFits c → Valid c → ThreadsNamed c.heads
        → Lists (listing_text c) c }
{}

/// So it is with the compiler's code of each program whose names, kinds and links are correct.
pub fn compiled_code_is_listed()
    ensures { (p : Source) → SourceFits p → NamesFit p → IsPlaced (numbered p)
        → Lists (listing_text (compiled (resolved_of (numbered p))))
        (compiled (resolved_of (numbered p))) }
{}

/// A listing of code, valid or not, is the text that is written of the code: no code has another
/// one. The code keeps the limits of code, and its threads in arguments and orders have names
/// (docs/CODE.md, "Listings that are read").
pub fn listed_code_is_written()
    ensures text { (text : List ℕ) (c : Automata) → Lists text c → text ≡ listing_text c }
    ensures limits { (text : List ℕ) (c : Automata) → Lists text c → RawFits c }
    ensures threads { (text : List ℕ) (c : Automata) → Lists text c → ThreadsNamed c.heads }
{}

/// A text is a listing of at most one code, or has one line at which it is refused, and never both
/// (docs/CODE.md, "Listings that are read").
pub fn texts_have_one_answer()
    ensures one_code { (text : List ℕ) (a c : Automata) → Lists text a → Lists text c → a ≡ c }
    ensures one_line { (text : List ℕ) (m n : ℕ) → LineFault text m → LineFault text n → m ≡ n }
    ensures never_both { (text : List ℕ) (c : Automata) (n : ℕ)
        → Lists text c → ¬ LineFault text n }
{}
