//! The first of several offsets.

ghost use Rattle.std.specs.Prelude.{ℕ, ◌++◌, List};
ghost use Rattle.loft_listing_reader.specs.AllWrong.{IsLeastOf};

/// The earlier of two offsets, where there are both; the one that there is, else.
pub fn earlier(one: Option<u32>, other: Option<u32>) -> Option<u32>
    ensures { (ms ns : List ℕ) → IsLeastOf one ms → IsLeastOf other ns
        → IsLeastOf result (ms ++ ns) }
{
    match one {
        None => other,
        Some(m) => match other {
            None => Some(m),
            Some(n) => Some(m.min(n)),
        },
    }
}
