//! Memory that is remembered to have run out.

ghost use Rattle.std.specs.Prelude.{◌≡◌, ◌++◌, ◌∷◌, [], true, Ok, IfOk};

use crate::copy::{TryClone, try_clone_all};
use crate::errors::NoMemory;
use crate::lists::Sequence;
use std::alloc::Global;

/// Memory, and whether it was enough so far. What is made of several parts takes each part from a
/// room, and asks once, at the end, whether all of them are there (`done`). Where memory ran out a
/// part is empty or what the caller gave in its place, and the room says so from then on.
#[derive(Drop)]
pub struct Room {
    /// Where memory comes from.
    pub alloc: Global,
    /// Whether memory was enough for all that was asked for so far.
    pub is_whole: bool,
}

impl Room {
    /// Memory that was enough so far.
    pub fn new(alloc: Global) -> Room
        ensures { result.is_whole ≡ true }
    {
        Room {
            alloc,
            is_whole: true,
        }
    }

    /// What was made, if memory was enough for it.
    ///
    /// # Errors
    ///
    /// Out of memory: it ran out before.
    pub fn done<T: Drop>(self, made: T) -> Result<T, NoMemory>
        ensures whole { IfOk result (λ _. self.is_whole ≡ true) }
        ensures same { IfOk result (λ all. all ≡ made) }
    {
        if self.is_whole {
            Ok(made)
        } else {
            Err(NoMemory)
        }
    }

    /// Copies of all items, or an empty list.
    pub fn all<T: TryClone>(&mut self, items: &[T]) -> Sequence<T>
        ensures before { self.new.is_whole ≡ true → self.old.is_whole ≡ true }
        ensures copy { self.new.is_whole ≡ true → result ≡ items.now }
    {
        match try_clone_all(self.alloc, items) {
            Ok(copy) => copy,
            Err(_) => {
                self.is_whole = false;
                Sequence::new(self.alloc)
            }
        }
    }

    /// A copy of a slice, or an empty list.
    pub fn slice<T: Copy>(&mut self, items: &[T]) -> Sequence<T>
        ensures before { self.new.is_whole ≡ true → self.old.is_whole ≡ true }
        ensures copy { self.new.is_whole ≡ true → result ≡ items.now }
    {
        match Sequence::from_slice(self.alloc, items) {
            Ok(copy) => copy,
            Err(_) => {
                self.is_whole = false;
                Sequence::new(self.alloc)
            }
        }
    }

    /// Appends an item to a list.
    pub fn push<T: Drop>(&mut self, all: &mut Sequence<T>, item: T)
        ensures before { self.new.is_whole ≡ true → self.old.is_whole ≡ true }
        ensures more { self.new.is_whole ≡ true → all.new ≡ all.old ++ item ∷ [] }
    {
        match all.push(item) {
            Ok(()) => {}
            Err(_) => self.is_whole = false,
        }
    }

    /// Appends an item to a vector.
    pub fn push_to<T: Drop>(&mut self, all: &mut Vec<T>, item: T)
        ensures before { self.new.is_whole ≡ true → self.old.is_whole ≡ true }
        ensures more { self.new.is_whole ≡ true → all.new.items ≡ all.old.items ++ item ∷ [] }
    {
        match all.push(item) {
            Ok(()) => {}
            Err(_) => self.is_whole = false,
        }
    }

    /// What was made, or the other value in its place.
    pub fn or<T: Drop>(&mut self, made: Result<T, NoMemory>, other: T) -> T
        ensures before { self.new.is_whole ≡ true → self.old.is_whole ≡ true }
        ensures same { self.new.is_whole ≡ true → made ≡ Ok result }
    {
        match made {
            Ok(made) => made,
            Err(_) => {
                self.is_whole = false;
                other
            }
        }
    }
}
