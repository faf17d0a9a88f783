//! The shared variables that a program declares.

ghost use Rattle.std.specs.Prelude.{◌≡◌, [], length, map, filter, IfOk};
ghost use Rattle.std.specs.List.{range_with_len};
ghost use Rattle.loft_tree.specs.Ranks.{is_at, rank_in};

use crate::heads::SharedHead;
use loft_base::{NoMemory, SchedId, Sequence};
use std::alloc::Global;
use std::marker::Model;

/// Declared shared variables, in text order. Contracts see them as a list. The index of each one among those of its
/// scheduler is counted once, so that the value of a variable is found without a search.
#[derive(Drop)]
pub struct SharedHeads {
    heads: Sequence<SharedHead>,
    ranks: Vec<usize>,
}

impl Model for SharedHeads {
    ghost use Rattle.std.specs.Prelude.{◌≡◌, List, length, map};
    ghost use Rattle.std.specs.List.{range_with_len};
    ghost use Rattle.loft_tree.specs.declared.heads.SharedHead.{SharedHead as Head};
    ghost use Rattle.loft_tree.specs.Ranks.{rank_in};

    ghost Value = { List Head };

    ghost view = { λ s. s.heads };

    ghost invariant = { λ s. s.ranks.items ≡ map (rank_in s.heads) (range_with_len 0 (length s.heads)) };
}

/// How many of the variables are of this scheduler.
fn how_many(scheduler: SchedId, heads: &[SharedHead]) -> usize
    ensures { result ≡ length (filter (is_at scheduler) heads.now) }
{
    let mut count = 0;
    for head in heads {
        if scheduler.0 == head.scheduler.0 {
            count += 1;
        }
    }
    count
}

/// The index of the variable with this number among those of its scheduler; 0 if there is none.
fn rank_of(heads: &[SharedHead], number: usize) -> usize
    ensures { result ≡ rank_in heads.now number }
{
    match heads.get(number) {
        Some(head) => how_many(head.scheduler, &heads[..number]),
        None => 0,
    }
}

/// The index of each variable among those of its scheduler.
fn ranks_of(alloc: Global, heads: &[SharedHead]) -> Result<Vec<usize>, NoMemory>
    ensures { IfOk result (λ ranks. ranks.items ≡ map (rank_in heads.now) (range_with_len 0 (length heads.now))) }
{
    let mut ranks = Vec::new(alloc);
    for number in 0..heads.len() {
        ranks.push(rank_of(heads, number))?;
    }
    Ok(ranks)
}

impl SharedHeads {
    ghost use Rattle.std.specs.Prelude.{◌≡◌, [], length, IfOk};
    ghost use Rattle.loft_tree.specs.Ranks.{rank_in};

    /// No variables; it allocates nothing.
    pub fn none(alloc: Global) -> SharedHeads
        ensures { result ≡ [] }
    {
        SharedHeads {
            heads: Sequence::new(alloc),
            ranks: Vec::new(alloc),
        }
    }

    /// These variables.
    ///
    /// # Errors
    ///
    /// Out of memory.
    pub fn new(alloc: Global, heads: Sequence<SharedHead>) -> Result<SharedHeads, NoMemory>
        ensures { IfOk result (λ all. all ≡ heads) }
    {
        let ranks = ranks_of(alloc, heads.as_slice())?;
        Ok(SharedHeads { heads, ranks })
    }

    /// The variables, in text order.
    pub fn as_slice(&self) -> &[SharedHead]
        ensures { result.now ≡ self.now }
    {
        self.heads.as_slice()
    }

    /// How many variables there are.
    pub fn len(&self) -> usize
        ensures { result ≡ length self.now }
    {
        self.heads.len()
    }

    /// The index of the variable with this number among those of its scheduler (docs/SEMANTICS.md, "Machine"); 0 if there
    /// is none.
    pub fn rank(&self, number: usize) -> usize
        ensures { result ≡ rank_in self.now number }
    {
        match self.ranks.get(number) {
            Some(rank) => *rank,
            None => 0,
        }
    }
}
