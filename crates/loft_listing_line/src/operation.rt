//! The line of an operation.

ghost use Rattle.std.specs.Prelude.{◌≡◌, ℕ, List, ◌∷◌, ◌++◌, IfOk, IfSome, MatchOption};
ghost use Rattle.std.specs.Fmt.{decimal};
ghost use Rattle.loft_listing_line.specs.Cuts.{IsWithout};
ghost use Rattle.loft_listing_line.specs.Finds.{Finds};
ghost use Rattle.loft_listing_line.specs.Rows.{bare_line, line_text};
ghost use Rattle.loft_listing_line.specs.RowsFit.{IsSmall, IsLineOf, ListingLineFits};
ghost use Rattle.loft_listing_line.specs.RowView.{operation_of};
ghost use Rattle.loft_listing_line.specs.declared.sort.LineSort.TheVariants as sort;

use crate::cut::{cut_at, number_before};
use crate::deed::deed_in;
use crate::name::place_in;
use crate::row::OperationRow;
use loft_base::NoMemory;
use std::alloc::Global;

/// What stands between the blanks of the line of an operation.
#[derive(Clone, Copy)]
struct Columns<'a> {
    number: u64,
    place: &'a [u8],
    depth: u64,
    deed: &'a [u8],
}

/// The columns of a line.
fn columns_of(line: &[u8]) -> Option<Columns<'_>>
    ensures found { (number depth : ℕ) (place deed : List ℕ) → IsSmall number → IsSmall depth
        → IsWithout 32 place
        → line.now ≡ decimal number ++ 32 ∷ (place ++ 32 ∷ (decimal depth ++ 32 ∷ deed))
        → MatchOption result ⊥ (λ c. (c.number ≡ number) × (c.place.now ≡ place)
        × (c.depth ≡ depth) × (c.deed.now ≡ deed)) }
    ensures small { IfSome result (λ c. IsSmall c.number × IsSmall c.depth) }
{
    let (number, line) = number_before(line)?;
    let (place, line) = cut_at(line, b' ')?;
    let (depth, deed) = number_before(line)?;
    Some(Columns {
        number,
        place,
        depth,
        deed,
    })
}

/// The operation that the line may be of.
pub fn operation(alloc: Global, line: &[u8]) -> Result<Option<OperationRow>, NoMemory>
    ensures found { Finds operation_of bare_line (IsLineOf sort.Operation) line_text
        line.now result }
    ensures fits { IfOk result (λ found. IfSome found (λ o. ListingLineFits (operation_of o))) }
{
    let Some(columns) = columns_of(line) else {
        return Ok(None);
    };
    let Some(place) = place_in(alloc, columns.place)? else {
        return Ok(None);
    };
    let Some(deed) = deed_in(alloc, columns.deed)? else {
        return Ok(None);
    };
    Ok(Some(OperationRow {
        number: columns.number,
        place,
        depth: columns.depth,
        deed,
    }))
}
