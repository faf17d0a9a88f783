//! Copies that take memory.

ghost use Rattle.std.specs.Prelude.{◌≡◌, IfOk};

use crate::errors::NoMemory;
use crate::lists::Sequence;
use std::alloc::Global;

/// What can be copied where there is memory for it.
pub trait TryClone: Drop {
    /// A copy.
    ///
    /// # Errors
    ///
    /// Out of memory.
    fn try_clone(&self, alloc: Global) -> Result<Self, NoMemory>
        ensures { IfOk result (λ copy. copy ≡ self.now) };
}

/// A list of copies.
///
/// # Errors
///
/// Out of memory.
pub fn try_clone_all<T: TryClone>(alloc: Global, items: &[T]) -> Result<Sequence<T>, NoMemory>
    ensures { IfOk result (λ copy. copy ≡ items.now) }
{
    let mut copy = Vec::with_capacity(alloc, items.len())?;
    for item in items {
        copy.push(item.try_clone(alloc)?)?;
    }
    Ok(Sequence::from_vec(copy))
}

impl TryClone for Sequence<u8> {
    fn try_clone(&self, alloc: Global) -> Result<Sequence<u8>, NoMemory> {
        Sequence::from_slice(alloc, self.as_slice())
    }
}
