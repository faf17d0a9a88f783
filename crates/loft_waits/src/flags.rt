//! A flag for each position, and between which positions flags are set.

ghost use Rattle.std.specs.Prelude.{◌≡◌, ◌<◌, ◌≤◌, ◌++◌, ◌∷◌, [], ℕ, OnOk, OnErr, length, take, drop, slice_set, MatchOption, true, false};
ghost use Rattle.loft_waits.specs.Places.{flag};
ghost use Rattle.loft_waits.specs.Flags.{is_set};

use loft_base::NoMemory;
use memchr::memchr;
use std::alloc::Global;
use std::marker::Model;

/// A flag for each position, and between which positions flags are set: a search looks at no others.
/// Contracts see the flags as bytes, 1 where one is set, else 0.
#[derive(Drop)]
pub struct Flags {
    bytes: Vec<u8>,
    /// No flag before it is set.
    first: usize,
    /// No flag from there on is set.
    end: usize,
    /// About how many were set since none was.
    count: usize,
}

impl Model for Flags {
    ghost use Rattle.std.specs.Prelude.{List, ℕ};
    ghost use Rattle.loft_waits.specs.Flags.{IsWithin};

    ghost Value = { List ℕ };

    ghost view = { λ flags. flags.bytes.items };

    ghost invariant = { λ flags. IsWithin flags.first flags.end flags.bytes.items };
}

/// The bytes from one position on and before another.
fn part(bytes: &[u8], from: usize, end: usize) -> &[u8]
    requires order { from ≤ end }
    requires within { end ≤ length bytes.now }
    ensures { result.now ≡ drop from (take end bytes.now) }
{
    bytes.split_at(end).0.split_at(from).1
}

/// The first byte from one position on and before another that is 1.
fn search(bytes: &[u8], from: usize, end: usize) -> Option<usize>
    requires order { from ≤ end }
    requires within { end ≤ length bytes.now }
    ensures { MatchOption result ((i : ℕ) → from ≤ i → i < end → is_set bytes.now i ≡ false)
        (λ q. (from ≤ q) × (q < end) × (is_set bytes.now q ≡ true)
        × ((i : ℕ) → from ≤ i → i < q → is_set bytes.now i ≡ false)) }
{
    match memchr(1, part(bytes, from, end)) {
        Some(count) => Some(from + count),
        None => None,
    }
}

impl Flags {
    /// No positions; it allocates nothing.
    pub fn new(alloc: Global) -> Flags
        ensures { result ≡ [] }
    {
        Flags {
            bytes: Vec::new(alloc),
            first: usize::MAX,
            end: 0,
            count: 0,
        }
    }

    /// How many positions there are.
    pub fn len(&self) -> usize
        ensures { result ≡ length self.now }
    {
        self.bytes.len()
    }

    /// One more position, after the others. Its flag isn't set.
    ///
    /// # Errors
    ///
    /// Out of memory; the flags are as before.
    pub fn grow(&mut self) -> Result<(), NoMemory>
        ensures ok { OnOk result (self.new ≡ self.old ++ 0 ∷ []) }
        ensures err { OnErr result (self.new ≡ self.old) }
    {
        self.bytes.push(0)?;
        Ok(())
    }

    /// So many positions are left.
    pub fn truncate(&mut self, len: usize)
        ensures { self.new ≡ take len self.old }
    {
        self.bytes.truncate(len);
    }

    /// The flag of a position is set from now on.
    pub fn set(&mut self, pos: usize)
        requires within { pos < length self.old }
        ensures { self.new ≡ slice_set self.old pos 1 }
    {
        if self.bytes[pos] == 0 {
            self.count = self.count.saturating_add(1);
        }
        self.first = self.first.min(pos);
        self.end = self.end.max(pos + 1);
        self.bytes[pos] = 1;
    }

    /// The flag of a position isn't set any more.
    pub fn clear(&mut self, pos: usize)
        requires within { pos < length self.old }
        ensures { self.new ≡ slice_set self.old pos 0 }
    {
        self.bytes[pos] = 0;
    }

    /// The flag of a position is set from now on, or isn't any more.
    pub fn put(&mut self, pos: usize, is_set: bool)
        requires within { pos < length self.old }
        ensures { self.new ≡ slice_set self.old pos (flag is_set) }
    {
        if is_set {
            self.set(pos);
        } else {
            self.clear(pos);
        }
    }

    /// About how many flags are set, as to make room for what is kept of their positions: those that
    /// were set since the last `rest`.
    pub fn count_hint(&self) -> usize {
        self.count
    }

    /// Where no flag is set, a search looks at none from now on until one is.
    pub fn rest(&mut self)
        requires none { (i : ℕ) → is_set self.old i ≡ false }
        ensures { self.new ≡ self.old }
    {
        self.first = usize::MAX;
        self.end = 0;
        self.count = 0;
    }

    /// The first position from there on whose flag is set.
    pub fn next(&self, from: usize) -> Option<usize>
        ensures { MatchOption result ((i : ℕ) → from ≤ i → is_set self.now i ≡ false)
            (λ q. (from ≤ q) × (q < length self.now) × (is_set self.now q ≡ true)
            × ((i : ℕ) → from ≤ i → i < q → is_set self.now i ≡ false)) }
    {
        let from = from.max(self.first);
        let end = self.end.min(self.bytes.len());
        if from >= end {
            return None;
        }
        if self.bytes[from] == 1 {
            return Some(from);
        }
        search(self.bytes.as_slice(), from, end)
    }
}
