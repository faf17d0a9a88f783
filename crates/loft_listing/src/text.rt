//! A listing in the making.

ghost use Rattle.std.specs.Prelude.{◌≡◌, ◌∷◌, [], IfOk};
ghost use Rattle.loft_listing_line.specs.RowsFit.{IsOneLineRow};
ghost use Rattle.loft_listing_line.specs.RowView.{row_of};
ghost use Rattle.loft_listing.specs.Making.{Adds, IsWhole};

use loft_base::{NoMemory, Out, Room};
use loft_listing_line::{Row, write_row};
use std::alloc::Global;

/// A listing in the making: its text, and memory for the names and expressions in it. Who writes
/// asks once, at the end, whether memory was enough (`done`).
#[derive(Drop)]
pub struct Listing {
    /// The text so far.
    pub out: Out,
    /// Memory for what is written in it.
    pub room: Room,
}

impl Listing {
    /// The empty text; it allocates nothing.
    pub fn new(alloc: Global) -> Listing
        ensures text { result.out.text.items ≡ [] }
        ensures whole { IsWhole result }
    {
        Listing {
            out: Out::new(alloc),
            room: Room::new(alloc),
        }
    }

    /// Appends the line that says this.
    pub fn put(&mut self, row: Row)
        requires { IsOneLineRow (row_of row) }
        ensures { Adds self.old self.new (row_of row ∷ []) }
    {
        write_row(&mut self.out, row);
    }

    /// The text, if memory was enough for it.
    ///
    /// # Errors
    ///
    /// Out of memory: it ran out before.
    pub fn done(self) -> Result<Vec<u8>, NoMemory>
        ensures whole { IfOk result (λ _. IsWhole self) }
        ensures text { IfOk result (λ text. text.items ≡ self.out.text.items) }
    {
        if self.room.is_whole {
            self.out.done()
        } else {
            Err(NoMemory)
        }
    }
}
