//! The law of lines.

ghost use Rattle.loft_listing_line.specs.Feeds.{EndsAtItsFeed};
ghost use Rattle.loft_listing_line.specs.Rows.{ListingLine, line_text};
ghost use Rattle.loft_listing_line.specs.RowsFit.{ListingLineFits};

/// A line that a listing can have ends at its only line feed, so a listing is cut into its lines at
/// its line feeds (docs/CODE.md, "Lines of a listing").
pub fn lines_end_at_their_feeds()
    ensures { (l : ListingLine) → ListingLineFits l → EndsAtItsFeed (line_text l) }
{}
