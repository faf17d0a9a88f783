//! Positions by the ids of the threads that stand there.

ghost use Rattle.std.specs.Prelude.{◌≡◌, ◌<◌, ℕ, true, false, MatchOption};
ghost use Rattle.loft_finder.specs.Finder.{may_stand, AllMayStand, NobodyStands, KeepsAll, KeepsOthers};

use crate::key::IdKey;
use loft_base::ThreadId;
use std::alloc::Global;
use std::collections::BTreeSet;
use std::ops::Bound;

/// A search that looks at more positions than this is long: to find one by its id costs less.
const LOOKS: usize = 16;

/// So many long searches are made before positions are listed.
const SEARCHES: usize = 32;

/// Where threads may stand in a list, by their ids: it tells from which position on one with an id has
/// to be searched for. It doesn't list any position before long searches have been made, and where
/// memory was refused it lists none any more: then each thread may stand anywhere, and each search
/// begins at the first position.
#[derive(Drop)]
pub struct Finder {
    places: BTreeSet<(IdKey, usize)>,
    /// Whether positions are listed.
    is_on: bool,
    /// How many long searches were made since none is listed.
    searches: usize,
}

impl Finder {
    /// No position is listed: each thread may stand anywhere.
    pub fn new(alloc: Global) -> Finder
        ensures { AllMayStand result }
    {
        Finder {
            places: BTreeSet::new(alloc),
            is_on: false,
            searches: 0,
        }
    }

    /// Whether so many long searches were made that the positions are to be listed (`begin`).
    pub fn is_due(&self) -> bool {
        !self.is_on && self.searches >= SEARCHES
    }

    /// A search has looked at so many positions.
    pub fn count(&mut self, looks: usize)
        ensures { KeepsAll self.old self.new }
    {
        if !self.is_on && looks > LOOKS {
            self.searches = self.searches.saturating_add(1);
        }
    }

    /// Positions are listed from now on. None is yet: nobody stands anywhere.
    pub fn begin(&mut self)
        ensures { NobodyStands self.new }
    {
        self.places.clear();
        self.is_on = true;
    }

    /// No position is listed any more: each thread may stand anywhere.
    fn forget(&mut self)
        ensures { AllMayStand self.new }
    {
        self.places.clear();
        self.is_on = false;
        self.searches = 0;
    }

    /// A thread stands at a position from now on. Where memory is refused, no position is listed any
    /// more.
    pub fn add(&mut self, thread: ThreadId, pos: usize)
        ensures keeps { KeepsAll self.old self.new }
        ensures stands { may_stand self.new thread pos ≡ true }
    {
        if self.is_on {
            let key = IdKey::of(thread);
            match self.places.insert((key, pos)) {
                Ok(_) => {}
                Err(_) => self.forget(),
            }
        }
    }

    /// A thread doesn't stand at a position any more. Nothing is said of that position.
    pub fn remove(&mut self, thread: ThreadId, pos: usize)
        ensures { KeepsOthers pos self.old self.new }
    {
        if self.is_on {
            let key = IdKey::of(thread);
            self.places.remove(&(key, pos));
        }
    }

    /// From which position on a thread with this id has to be searched for, among so many positions:
    /// none stands before it. None where none stands at any of them.
    pub fn first(&self, thread: ThreadId, len: usize) -> Option<usize>
        ensures { MatchOption result
            ((i : ℕ) → i < len → may_stand self.now thread i ≡ false)
            (λ from. (i : ℕ) → i < from → i < len → may_stand self.now thread i ≡ false) }
    {
        if !self.is_on {
            return Some(0);
        }
        let key = IdKey::of(thread);
        let range = (Bound::Included((key, 0)), Bound::Included((key, len)));
        let mut places = self.places.range(range);
        match places.next() {
            Some(place) => Some(place.1),
            None => None,
        }
    }
}
