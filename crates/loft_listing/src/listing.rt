//! The listing of code.

ghost use Rattle.std.specs.Prelude.{◌≡◌, IfOk};
ghost use Rattle.loft_code.specs.View.{automata_of};
ghost use Rattle.loft_listing.specs.Listing.{listing_text};

use crate::declaration::put_declaration;
use crate::text::Listing;
use loft_base::NoMemory;
use loft_code::Code;
use loft_listing_line::Row;
use std::alloc::Global;

/// The listing of code, to the byte (docs/CODE.md, "Listing").
///
/// # Errors
///
/// `NoMemory` where there was no memory for the text.
pub fn write(alloc: Global, c: &Code) -> Result<Vec<u8>, NoMemory>
    ensures { IfOk result (λ text. text.items ≡ listing_text (automata_of c.now)) }
{
    let mut listing = Listing::new(alloc);
    listing.put(Row::Title);
    let program = c.program();
    let heads = &program.heads;
    for item in heads.items.as_slice() {
        put_declaration(&mut listing, heads, program.modules.as_slice(), *item);
    }
    listing.done()
}
