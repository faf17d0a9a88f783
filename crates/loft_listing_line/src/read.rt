//! Reading a line.

ghost use Rattle.std.specs.Prelude.{◌≡◌, ◌≤◌, ◌↔◌, true, false, Some, None, Ok, IfOk, IfSome, IsTrue, length};
ghost use Rattle.std.specs.Option.{option_map};
ghost use Rattle.loft_listing_line.specs.Rows.{ListingLine, bare_line, line_text};
ghost use Rattle.loft_listing_line.specs.RowsFit.{IsLine, ListingLineFits};
ghost use Rattle.loft_listing_line.specs.RowView.{row_of};

use crate::part::find_row;
use crate::put::put_row;
use crate::row::Row;
use loft_base::{NoMemory, Out};
use loft_lex::MAX_OFFSET;
use std::alloc::Global;

/// Whether the line says this.
fn is_written(alloc: Global, row: &Row, line: &[u8]) -> Result<bool, NoMemory>
    requires { ListingLineFits (row_of row.now) }
    ensures { IfOk result (λ same. IsTrue same ↔ (line.now ≡ line_text (row_of row.now))) }
{
    let mut out = Out::new(alloc);
    put_row(&mut out, row);
    let text = out.done()?;
    Ok(text.as_slice() == line)
}

/// The value where it is written, nothing where it isn't.
fn keep_written<T: Drop>(value: T, written: Result<bool, NoMemory>) -> Result<Option<T>, NoMemory>
    ensures kept { IfOk result (λ found. IfSome found (λ v. (v ≡ value) × (written ≡ Ok true))) }
    ensures gone { IfOk result (λ found. found ≡ None → written ≡ Ok false) }
{
    match written {
        Ok(true) => Ok(Some(value)),
        Ok(false) => Ok(None),
        Err(NoMemory) => Err(NoMemory),
    }
}

/// What a line of a listing says, with its line feed; nothing where it is none, or has 4 GiB or more
/// (docs/CODE.md, "Lines of a listing").
///
/// # Errors
///
/// `NoMemory` where memory runs out, whatever the line is.
pub fn read_row(alloc: Global, line: &[u8]) -> Result<Option<Row>, NoMemory>
    ensures read { IfOk result (λ found. IfSome found (λ row. IsLine line.now (row_of row))) }
    ensures only { (l : ListingLine) → IsLine line.now l → length line.now ≤ MAX_OFFSET
        → IfOk result (λ found. option_map (λ row. bare_line (row_of row)) found
        ≡ Some (bare_line l)) }
{
    let Some(row) = find_row(alloc, line)? else {
        return Ok(None);
    };
    let written = is_written(alloc, &row, line);
    keep_written(row, written)
}
