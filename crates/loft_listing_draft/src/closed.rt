//! Declarations that are closed.

ghost use Rattle.std.specs.Prelude.{◌≡◌, ◌∷◌, ◌++◌, [], true, map};
ghost use Rattle.loft_tree.specs.Fits.{Each};
ghost use Rattle.loft_tree.specs.View.{declaration_of};
ghost use Rattle.loft_listing_draft.specs.Drafts.{Draft as PlainDraft, DraftItem, operations_of, source_of};
ghost use Rattle.loft_listing_draft.specs.Held.{HoldsClosed};
ghost use Rattle.loft_listing_draft.specs.InMemory.{HeldFits, held_operation};
ghost use Rattle.loft_listing_draft.specs.Taking.{HasRoom};

use crate::counts::Counts;
use crate::draft::{Draft, OperationLine};
use loft_base::Room;
use loft_tree::Item;
use std::alloc::Global;

/// The declarations that are closed.
#[derive(Drop)]
pub struct Closed {
    pub draft: Draft,
    /// How many of each sort they are.
    pub counts: Counts,
}

impl Closed {
    /// None.
    pub fn none(alloc: Global) -> Closed
        ensures { HoldsClosed result [] }
    {
        Closed {
            draft: Draft {
                items: Vec::new(alloc),
                operations: Vec::new(alloc),
            },
            counts: Counts::none(),
        }
    }

    /// One more, with its operations.
    pub fn with(self, room: &mut Room, item: Item, operations: Vec<OperationLine>) -> Closed
        ensures before { room.new.is_whole ≡ true → room.old.is_whole ≡ true }
        ensures more { room.new.is_whole ≡ true → (d : PlainDraft) (i : DraftItem)
            → HoldsClosed self d → HasRoom (source_of d) (declaration_of item)
            → i.declaration ≡ declaration_of item
            → map held_operation operations.items ≡ operations_of i
            → Each HeldFits operations.items → HoldsClosed result (d ++ i ∷ []) }
    {
        let counts = self.counts.after(&item);
        let Draft {
            mut items,
            operations: mut all,
        } = self.draft;
        room.push_to(&mut items, item);
        room.push_to(&mut all, operations);
        Closed {
            draft: Draft {
                items,
                operations: all,
            },
            counts,
        }
    }
}
