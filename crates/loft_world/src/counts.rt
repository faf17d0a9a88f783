//! How many creates each client has given.

ghost use Rattle.std.specs.Prelude.{◌≡◌, ◌+◌, ◌<◌, ◌^◌, ◌==◌, ◌&&◌, ℕ, IsSome, OnOk, if◌then◌else◌};
ghost use Rattle.std.specs.Ordering.{nat_cmp};
ghost use Rattle.std.specs.BTreeMap.{get};
ghost use Rattle.loft_world.specs.State.{count_in};

use loft_base::NoMemory;
use std::collections::BTreeMap;

/// Counts by the number of a client; 0 for a client that isn't there.
pub(crate) type Counts = BTreeMap<u32, u64>;

/// The count of a client.
pub(crate) fn count_in(counts: &Counts, c: u32) -> u64
    ensures { result ≡ count_in counts.now c }
{
    counts.get(&c).copied().unwrap_or(0)
}

/// Makes room for the count of a client. No count changes.
pub(crate) fn make_room(counts: &mut Counts, c: u32) -> Result<(), NoMemory>
    ensures same { (d : ℕ) → count_in counts.new d ≡ count_in counts.old d }
    ensures room { OnOk result (IsSome (get nat_cmp counts.new c)) }
{
    let count = count_in(counts, c);
    counts.insert(c, count)?;
    Ok(())
}

/// Adds one to the count of a client that has room, where `one` says so.
pub(crate) fn add_one_if(counts: &mut Counts, c: u32, one: bool)
    requires room { IsSome (get nat_cmp counts.old c) }
    requires few { count_in counts.old c + 1 < 2 ^ 64 }
    ensures { (d : ℕ) → count_in counts.new d
        ≡ (if (d == c) && one then count_in counts.old d + 1 else count_in counts.old d) }
{
    if one {
        if let Some(count) = counts.get_mut(&c) {
            *count += 1;
        }
    }
}
