//! The least of the offsets that are found.

ghost use Rattle.std.specs.Prelude.{◌≡◌};
ghost use Rattle.loft_listing_names.specs.Least.{lesser};

/// Keeps the lesser of the least offset so far and this one.
pub fn note(least: &mut Option<u32>, at: u32)
    ensures { least.new ≡ lesser least.old at }
{
    match *least {
        Some(first) if first <= at => {}
        _ => *least = Some(at),
    }
}
