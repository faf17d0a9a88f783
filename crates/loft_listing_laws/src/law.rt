//! Laws of the texts of listings.

ghost use Rattle.std.specs.Prelude.{◌≡◌, ◌++◌, ℕ, List};
ghost use Rattle.loft_listing_draft.specs.Drafts.{Draft, IsListing};
ghost use Rattle.loft_listing_draft.specs.Stops.{StopsAt};
ghost use Rattle.loft_listing_line.specs.Rows.{ListingLine, bare_line, line_text};
ghost use Rattle.loft_listing_line.specs.RowsFit.{ListingLineFits};

/// A text is at most one line of a listing, but for offsets, and begins with at most one
/// (docs/CODE.md, "Lines of a listing").
pub fn lines_say_one_thing()
    ensures line { (l k : ListingLine) → ListingLineFits l → ListingLineFits k
        → line_text l ≡ line_text k → bare_line l ≡ bare_line k }
    ensures next { (l k : ListingLine) (a b : List ℕ) → ListingLineFits l → ListingLineFits k
        → line_text l ++ a ≡ line_text k ++ b → (bare_line l ≡ bare_line k) × (a ≡ b) }
{}

/// A text says at most one draft, or stops at one offset with what the lines before it say, and never
/// both (docs/CODE.md, "What a listing says").
pub fn texts_say_one_thing()
    ensures one_draft { (text : List ℕ) (d e : Draft)
        → IsListing text d → IsListing text e → d ≡ e }
    ensures one_stop { (text : List ℕ) (d e : Draft) (m n : ℕ)
        → StopsAt text d m → StopsAt text e n → (d ≡ e) × (m ≡ n) }
    ensures never_both { (text : List ℕ) (d e : Draft) (n : ℕ)
        → IsListing text d → ¬ StopsAt text e n }
{}
