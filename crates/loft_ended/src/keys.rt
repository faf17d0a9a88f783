//! The threads of a set, most of which are told in the order of their numbers.

ghost use Rattle.std.specs.Prelude.{◌≡◌, cond, true, false, OnOk, OnErr};
ghost use Rattle.loft_ended.specs.Numbers.{has_number, IsRising, IsAbove};

use loft_base::{Maker, NoMemory, ThreadId};
use loft_finder::IdKey;
use std::alloc::Global;
use std::collections::BTreeSet;

/// A set of threads. Where one maker's are told in the order of their numbers, which most are, these are
/// a list, so that one more takes no search; the others are in a tree.
#[derive(Drop)]
pub(crate) struct Keys {
    /// Who made the threads whose numbers are listed.
    maker: Maker,
    /// Their numbers, rising.
    numbers: Vec<u64>,
    others: BTreeSet<IdKey>,
    ghost rising: { IsRising numbers.items },
}

/// Whether a number is above all of these, which rise.
fn is_above(numbers: &[u64], number: u64) -> bool
    requires rising { IsRising numbers.now }
    ensures { result ≡ true → IsAbove number numbers.now }
{
    match numbers.last() {
        Some(last) => *last < number,
        None => true,
    }
}

/// Whether a number is one of these, which rise.
fn has(numbers: &[u64], number: u64) -> bool
    requires rising { IsRising numbers.now }
    ensures { result ≡ has_number number numbers.now }
{
    numbers.binary_search(&number).is_ok()
}

impl Keys {
    ghost use Rattle.loft_base.specs.declared.ids.ThreadId.{ThreadId as Id};
    ghost use Rattle.loft_sense.specs.CanGo.{same_thread};
    ghost use Rattle.loft_ended.specs.Ended.{has_thread};

    /// No threads; it allocates nothing.
    pub(crate) fn new(alloc: Global) -> Keys
        ensures { (t : Id) → has_thread result t ≡ false }
    {
        Keys {
            maker: Maker::Source,
            numbers: Vec::new(alloc),
            others: BTreeSet::new(alloc),
        }
    }

    /// The numbers that are listed are those of this maker's threads, where none is listed.
    fn begin(&mut self, maker: Maker)
        ensures { (t : Id) → has_thread self.new t ≡ has_thread self.old t }
    {
        if self.numbers.is_empty() {
            self.maker = maker;
        }
    }

    /// One more thread, where the numbers that are listed aren't begun anew.
    fn add(&mut self, thread: ThreadId) -> Result<(), NoMemory>
        ensures ok { OnOk result ((t : Id) → has_thread self.new t
            ≡ cond (same_thread t thread) true (has_thread self.old t)) }
        ensures err { OnErr result ((t : Id) → has_thread self.new t ≡ has_thread self.old t) }
    {
        if self.maker == thread.maker && is_above(self.numbers.as_slice(), thread.seq) {
            self.numbers.push(thread.seq)?;
        } else {
            self.others.insert(IdKey::of(thread))?;
        }
        Ok(())
    }

    /// One more thread. Where it is out of memory they stay.
    pub(crate) fn insert(&mut self, thread: ThreadId) -> Result<(), NoMemory>
        ensures ok { OnOk result ((t : Id) → has_thread self.new t
            ≡ cond (same_thread t thread) true (has_thread self.old t)) }
        ensures err { OnErr result ((t : Id) → has_thread self.new t ≡ has_thread self.old t) }
    {
        self.begin(thread.maker);
        self.add(thread)
    }

    /// Whether the thread is one of them.
    pub(crate) fn contains(&self, thread: ThreadId) -> bool
        ensures { result ≡ has_thread self.now thread }
    {
        (self.maker == thread.maker && has(self.numbers.as_slice(), thread.seq))
            || self.others.contains(&IdKey::of(thread))
    }
}
