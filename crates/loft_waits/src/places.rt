//! The lists of those whom the same can make go: one ordered set, and a list for the next close.

ghost use Rattle.std.specs.Prelude.{◌≡◌, ◌<◌, ◌==◌, ◌+◌, ℕ, Some, true, OnOk, IfSome};
ghost use Rattle.std.specs.List.{list_any};
ghost use Rattle.loft_orders.specs.declared.thread.Wait.TheVariants.{Index};
ghost use Rattle.loft_waits.specs.declared.key.Key.TheVariants.{Event, Value, End, Close};
ghost use Rattle.loft_waits.specs.Places.{is_listed, names_value, number_of, IsListed, KeepsOthers, KeepsAll, KeepsBut};

use crate::entry::Entry;
use crate::key::Key;
use loft_base::{EventId, NoMemory};
use loft_finder::IdKey;
use loft_orders::Wait;
use std::alloc::Global;
use std::collections::BTreeSet;

/// Keys, each with a position.
pub(crate) type Set = BTreeSet<(Key, usize)>;

/// Keys, each with a position whose thread the key can make go.
#[derive(Drop)]
pub(crate) struct Places {
    pub(crate) set: Set,
    /// Those that are listed under one close, in place of the set.
    pub(crate) soon: Vec<usize>,
    /// The number of that close.
    pub(crate) due: u64,
}

/// No position is listed.
pub(crate) fn no_places(alloc: Global) -> Places {
    Places {
        set: BTreeSet::new(alloc),
        soon: Vec::new(alloc),
        due: 1,
    }
}

/// A position is listed under a key.
fn list(places: &mut Places, key: Key, pos: usize) -> Result<(), NoMemory>
    ensures keeps { KeepsAll places.old places.new }
    ensures ok { OnOk result (is_listed places.new key pos ≡ true) }
{
    places.set.insert((key, pos))?;
    Ok(())
}

/// A position isn't listed under a key.
fn unlist(places: &mut Places, key: Key, pos: usize)
    ensures { KeepsOthers pos places.old places.new }
{
    places.set.remove(&(key, pos));
}

/// A position is listed under a close.
fn list_due(places: &mut Places, close: u64, pos: usize) -> Result<(), NoMemory>
    ensures keeps { KeepsAll places.old places.new }
    ensures ok { OnOk result (is_listed places.new (Close close) pos ≡ true) }
{
    if close == places.due {
        places.soon.push(pos)?;
        return Ok(());
    }
    list(places, Key::Close(close), pos)
}

/// A close has come: nobody needs to be listed under it any more.
pub(crate) fn forget(places: &mut Places, close: u64)
    ensures { KeepsBut (Close close) places.old places.new }
{
    if close == places.due {
        places.soon.clear();
        places.due = close.saturating_add(1);
    }
}

/// A number, where it isn't negative.
fn number(left: Option<i64>) -> Option<u64>
    ensures value { result ≡ number_of left }
    ensures small { IfSome result (λ n. n < 9223372036854775808) }
{
    match left {
        Some(left) => { if left < 0 { None } else { Some(left as u64) } }
        None => None,
    }
}

/// A position is listed under the close at which its number runs out, where it has one.
fn list_close(
    places: &mut Places,
    left: Option<i64>,
    clock: u64,
    pos: usize,
) -> Result<(), NoMemory>
    requires few { clock < 9223372036854775808 }
    ensures keeps { KeepsAll places.old places.new }
    ensures ok { OnOk result ((n : ℕ) → number_of left ≡ Some n
        → is_listed places.new (Close (clock + n)) pos ≡ true) }
{
    match number(left) {
        Some(left) => list_due(places, clock + left, pos),
        None => Ok(()),
    }
}

/// A position is listed under these events.
fn list_events(places: &mut Places, events: &[EventId], pos: usize) -> Result<(), NoMemory>
    ensures keeps { KeepsAll places.old places.new }
    ensures ok { OnOk result ((e : ℕ) → list_any (λ x. e == x.0) events.now ≡ true
        → is_listed places.new (Event e) pos ≡ true) }
{
    match events {
        [] => Ok(()),
        [event, events @ ..] => {
            list(places, Key::Event(event.0), pos)?;
            list_events(places, events, pos)
        }
    }
}

/// A position is listed under a value of an event, where the event can have one with this index.
fn list_value(places: &mut Places, event: EventId, at: i64, pos: usize) -> Result<(), NoMemory>
    ensures keeps { KeepsAll places.old places.new }
    ensures ok { OnOk result ((e n : ℕ) → names_value e n (Some (Index event at)) ≡ true
        → is_listed places.new (Value e n) pos ≡ true) }
{
    match number(Some(at)) {
        Some(at) => list(places, Key::Value(event.0, at), pos),
        None => Ok(()),
    }
}

/// A position is listed under each key that can make a thread go that waits so.
fn list_all(places: &mut Places, wait: &Wait, clock: u64, pos: usize) -> Result<(), NoMemory>
    requires few { clock < 9223372036854775808 }
    ensures keeps { KeepsAll places.old places.new }
    ensures ok { OnOk result (IsListed places.new clock pos (Some wait.now)) }
{
    match wait {
        Wait::New => Ok(()),
        Wait::Coop(left) => list_close(places, Some(*left), clock, pos),
        Wait::Events { events, left } => {
            list_events(places, events.as_slice(), pos)?;
            list_close(places, *left, clock, pos)
        }
        Wait::Index { event, at } => {
            list_value(places, *event, *at, pos)?;
            list_close(places, Some(1), clock, pos)
        }
        Wait::Next => Ok(()),
        Wait::Join { thread, left } => {
            list(places, Key::End(IdKey::of(*thread)), pos)?;
            list_close(places, *left, clock, pos)
        }
        Wait::Halt => Ok(()),
    }
}

/// A position isn't listed under the close at which its number runs out.
fn unlist_close(places: &mut Places, left: Option<i64>, clock: u64, pos: usize)
    ensures { KeepsOthers pos places.old places.new }
{
    if let Some(left) = number(left) {
        if left > 1 {
            unlist(places, Key::Close(clock.saturating_add(left)), pos);
        }
    }
}

/// A position isn't listed under a value of an event.
fn unlist_value(places: &mut Places, event: EventId, at: i64, pos: usize)
    ensures { KeepsOthers pos places.old places.new }
{
    if let Some(at) = number(Some(at)) {
        unlist(places, Key::Value(event.0, at), pos);
    }
}

/// A position isn't listed under these events.
fn unlist_events(places: &mut Places, events: &[EventId], pos: usize)
    ensures { KeepsOthers pos places.old places.new }
{
    match events {
        [] => {}
        [event, events @ ..] => {
            unlist(places, Key::Event(event.0), pos);
            unlist_events(places, events, pos);
        }
    }
}

/// A position leaves the lists in which it stands for a wait that was entered as so many instants
/// had closed.
fn leave(places: &mut Places, wait: &Wait, clock: u64, pos: usize)
    ensures { KeepsOthers pos places.old places.new }
{
    match wait {
        Wait::New => {}
        Wait::Coop(left) => unlist_close(places, Some(*left), clock, pos),
        Wait::Events { events, left } => {
            unlist_events(places, events.as_slice(), pos);
            unlist_close(places, *left, clock, pos);
        }
        Wait::Index { event, at } => {
            unlist_value(places, *event, *at, pos);
            unlist_close(places, Some(1), clock, pos);
        }
        Wait::Next => {}
        Wait::Join { thread, left } => {
            unlist(places, Key::End(IdKey::of(*thread)), pos);
            unlist_close(places, *left, clock, pos);
        }
        Wait::Halt => {}
    }
}

/// A position is listed under each key that can make a thread go that waits so from now on. Where
/// it is out of memory, it leaves these lists.
pub(crate) fn enter(
    places: &mut Places,
    wait: &Wait,
    clock: u64,
    pos: usize,
) -> Result<(), NoMemory>
    requires few { clock < 9223372036854775808 }
    ensures keeps { KeepsOthers pos places.old places.new }
    ensures ok { OnOk result (IsListed places.new clock pos (Some wait.now)) }
{
    let entered = list_all(places, wait, clock, pos);
    if entered.is_err() {
        leave(places, wait, clock, pos);
    }
    entered
}

/// A position leaves the lists in which it stands for an entry.
pub(crate) fn leave_entry(places: &mut Places, entry: &Option<Entry>, pos: usize)
    ensures { KeepsOthers pos places.old places.new }
{
    if let Some(entry) = entry {
        leave(places, &entry.wait, entry.since, pos);
    }
}
