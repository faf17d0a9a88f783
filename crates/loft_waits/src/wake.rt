//! Whose flags are set anew, where something has come.

ghost use Rattle.std.specs.Prelude.{◌≡◌, ◌≤◌, ◌<◌, ◌==◌, ℕ, None, true, false, length, slice_set, slice_index_or, unwrap_or};
ghost use Rattle.std.specs.List.{list_any};
ghost use Rattle.std.specs.Ordering.{is_gt, is_lt};
ghost use Rattle.loft_waits.specs.declared.key.Key.{Key as AKey};
ghost use Rattle.loft_waits.specs.declared.key.Key.TheVariants.{Event, Value, Close};
ghost use Rattle.loft_waits.specs.Told.{ready_at};
ghost use Rattle.loft_waits.specs.Places.{key_cmp, flag, SetsSome, SetsPlaced, SetsListed};

use crate::flags::Flags;
use crate::key::Key;
use crate::places::{Places, Set};
use crate::plain::Plain;
use std::ops::Bound;

/// The flag of one position is set anew.
#[tactic(auto, using(crate::proofs::RangeLemmas::set_short, crate::proofs::KeptLemmas::ready_beyond))]
fn set_flag(pos: usize, plain: &Plain, ready: &mut Flags)
    requires many { length plain.now.waits ≤ length ready.old }
    ensures { ready.new ≡ slice_set ready.old pos (flag (ready_at plain.now pos)) }
{
    if pos < plain.len() {
        ready.put(pos, plain.can_go(pos));
    } else if pos < ready.len() {
        ready.clear(pos);
    }
}

/// The flags of those are set anew who are listed under the keys from the first to the last.
pub(crate) fn wake(set: &Set, first: Key, last: Key, plain: &Plain, ready: &mut Flags)
    requires order { is_gt (key_cmp first last) ≡ false }
    requires many { length plain.now.waits ≤ length ready.old }
    ensures many { length ready.new ≡ length ready.old }
    ensures some { SetsSome plain.now ready.old ready.new }
    ensures listed { (k : AKey) → is_gt (key_cmp first k) ≡ false → is_lt (key_cmp last k) ≡ false
        → SetsPlaced plain.now set.now k ready.new }
{
    let range = (
        Bound::Included((first, 0)),
        Bound::Included((last, plain.len())),
    );
    for place in set.range(range) {
        set_flag(place.1, plain, ready);
    }
}

/// The flags of those are set anew who are listed under one key.
#[tactic(auto, using(crate::proofs::RangeLemmas::same_from, crate::proofs::RangeLemmas::same_to))]
pub(crate) fn wake_one(set: &Set, key: Key, plain: &Plain, ready: &mut Flags)
    requires many { length plain.now.waits ≤ length ready.old }
    ensures many { length ready.new ≡ length ready.old }
    ensures some { SetsSome plain.now ready.old ready.new }
    ensures listed { SetsPlaced plain.now set.now key ready.new }
{
    wake(set, key, key, plain, ready);
}

/// The flags of those are set anew who wait for a value of an event with one of these indices.
#[tactic(auto, using(crate::proofs::RangeLemmas::value_from, crate::proofs::RangeLemmas::value_to))]
fn wake_values(set: &Set, event: u32, from: usize, to: usize, plain: &Plain, ready: &mut Flags)
    requires many { length plain.now.waits ≤ length ready.old }
    ensures many { length ready.new ≡ length ready.old }
    ensures some { SetsSome plain.now ready.old ready.new }
    ensures listed { (n : ℕ) → from ≤ n → n < to
        → SetsPlaced plain.now set.now (Value event n) ready.new }
{
    if from < to {
        let first = Key::Value(event, from as u64);
        let last = Key::Value(event, to as u64 - 1);
        wake(set, first, last, plain, ready);
    }
}

/// The flags of those are set anew for whom an event can have changed something: it had so many
/// values where it was present, and it has so many now.
pub(crate) fn wake_event(
    set: &Set,
    event: u32,
    was: Option<usize>,
    count: usize,
    plain: &Plain,
    ready: &mut Flags,
)
    requires many { length plain.now.waits ≤ length ready.old }
    ensures many { length ready.new ≡ length ready.old }
    ensures some { SetsSome plain.now ready.old ready.new }
    ensures event { was ≡ None → SetsPlaced plain.now set.now (Event event) ready.new }
    ensures more { (n : ℕ) → unwrap_or was 0 ≤ n → n < count
        → SetsPlaced plain.now set.now (Value event n) ready.new }
    ensures fewer { (n : ℕ) → count ≤ n → n < unwrap_or was 0
        → SetsPlaced plain.now set.now (Value event n) ready.new }
{
    if was.is_none() {
        wake_one(set, Key::Event(event), plain, ready);
    }
    let had = was.unwrap_or(0);
    wake_values(set, event, had.min(count), had.max(count), plain, ready);
}

/// The flags of the positions in a list are set anew.
fn wake_list(list: &[usize], plain: &Plain, ready: &mut Flags)
    requires many { length plain.now.waits ≤ length ready.old }
    ensures many { length ready.new ≡ length ready.old }
    ensures some { SetsSome plain.now ready.old ready.new }
    ensures listed { (i : ℕ) → list_any (λ j. j == i) list.now ≡ true
        → slice_index_or ready.new i 0 ≡ flag (ready_at plain.now i) }
{
    for pos in list {
        set_flag(*pos, plain, ready);
    }
}

/// The flags of those are set anew who are listed under a close.
pub(crate) fn wake_close(places: &Places, close: u64, plain: &Plain, ready: &mut Flags)
    requires many { length plain.now.waits ≤ length ready.old }
    ensures many { length ready.new ≡ length ready.old }
    ensures some { SetsSome plain.now ready.old ready.new }
    ensures listed { SetsListed plain.now places.now (Close close) ready.new }
{
    wake_one(&places.set, Key::Close(close), plain, ready);
    if close == places.due {
        wake_list(places.soon.as_slice(), plain, ready);
    }
}
