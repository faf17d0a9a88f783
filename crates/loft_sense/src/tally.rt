//! What a scheduler has used of its bounds (docs/SEMANTICS.md, "Machine" and "Rest").

ghost use Rattle.std.specs.Prelude.{◌≡◌};
ghost use Rattle.loft_sense.specs.Tally.{most_bytes as most_bytes_of, most_gone as most_gone_of, reaches_bound as reaches_bound_of};

use crate::limits::{SPENT_BYTES, SPENT_GONE};
use loft_base::Limits;
use loft_tree::Heads;

/// What a scheduler has used of its bounds. No thread sees it.
#[derive(Clone, Copy)]
pub struct Tally {
    /// The instants that it has made.
    pub number: u64,
    /// The bytes of its block of the report so far: its first line, and its instants. It stops at `u64::MAX`.
    pub bytes: u64,
    /// The threads that have left it by `unlink`. It stops at `u64::MAX`.
    pub gone: u64,
}

/// With so many bytes in its block of the report a scheduler of these declarations makes no further instant.
pub fn most_bytes(_heads: &Heads) -> u64
    ensures { result ≡ most_bytes_of _heads.now }
{
    SPENT_BYTES
}

/// With so many threads that have left it by `unlink` a scheduler of these declarations makes no further instant.
pub fn most_gone(_heads: &Heads) -> u64
    ensures { result ≡ most_gone_of _heads.now }
{
    SPENT_GONE
}

impl Tally {
    /// Whether one of the bounds of these declarations is reached: a scheduler that has used so much makes no further
    /// instant.
    pub fn reaches_bound(&self, heads: &Heads, limits: &Limits) -> bool
        ensures { result ≡ reaches_bound_of heads.now limits.now self.now }
    {
        self.number >= limits.instants
            || self.bytes >= most_bytes(heads)
            || self.gone >= most_gone(heads)
    }
}
