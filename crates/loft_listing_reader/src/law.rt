//! What holds of the code of a listing.

ghost use Rattle.std.specs.Prelude.{◌≡◌, []};
ghost use Rattle.loft_code.specs.Fits.{RawFits};
ghost use Rattle.loft_listing_draft.specs.Drafts.{Draft, DraftFits};
ghost use Rattle.loft_listing_names.specs.Wrong.{wrong_offsets};
ghost use Rattle.loft_listing_reader.specs.Numbered.{numbered};

/// The code of a listing without wrong lines keeps the limits of code (docs/CODE.md, "Limits").
pub fn read_code_keeps_limits()
    ensures { (d : Draft) → DraftFits d → wrong_offsets d ≡ [] → RawFits (numbered d) }
{}
