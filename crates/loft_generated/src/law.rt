//! The law of generated sources.

ghost use Rattle.std.specs.Prelude.{◌≡◌, ◌≤◌, ℕ, length};
ghost use Rattle.loft_lex.specs.declared.TheConstants.{MAX_TEXT_LEN};
ghost use Rattle.loft_tree.specs.Source.{Source};
ghost use Rattle.loft_tree.specs.Fits.{SourceFits};
ghost use Rattle.loft_tree.specs.Resolved.{resolved_of};
ghost use Rattle.loft_grammar.specs.Texts.{Reads};
ghost use Rattle.loft_show.specs.Canon.{Canon};
ghost use Rattle.loft_show.specs.Places.{without_places};
ghost use Rattle.loft_scopes.specs.Faults.{NamesFit};
ghost use Rattle.loft_numbers.specs.Numbers.{numbered};
ghost use Rattle.loft_place.specs.Links.{IsPlaced};
ghost use Rattle.loft_gen.specs.Generated.{generated};
ghost use Rattle.loft_generated.specs.Walks.{walks_of};

/// The source of each number is the canonical text of its program, which keeps the limits of the
/// language, and whose names, kinds and links are correct. So the text is short enough, it reads as
/// a program, and that is the same but for its offsets, correct too, and does the same: no such
/// text has a fault.
pub fn generated_sources_are_correct()
    ensures canonical { (k : ℕ) → generated k ≡ Canon (walks_of k) }
    ensures limits { (k : ℕ) → SourceFits (walks_of k) }
    ensures names { (k : ℕ) → NamesFit (walks_of k) }
    ensures links { (k : ℕ) → IsPlaced (numbered (walks_of k)) }
    ensures short { (k : ℕ) → length (generated k) ≤ MAX_TEXT_LEN }
    ensures read { (k : ℕ) → (p : Source) × Reads (generated k) p }
    ensures same { (k : ℕ) (p : Source) → Reads (generated k) p
        → without_places p ≡ walks_of k }
    ensures read_names { (k : ℕ) (p : Source) → Reads (generated k) p → NamesFit p }
    ensures read_links { (k : ℕ) (p : Source) → Reads (generated k) p → IsPlaced (numbered p) }
    ensures read_runs { (k : ℕ) (p : Source) → Reads (generated k) p
        → resolved_of (numbered p) ≡ resolved_of (numbered (walks_of k)) }
{}
