//! Operations.

ghost use Rattle.std.specs.Prelude.{◌≡◌};
ghost use Rattle.loft_listing_line.specs.RowView.{deed_of};
ghost use Rattle.loft_listing_names.specs.Named.{instruction_names, operation_names};
ghost use Rattle.loft_listing_draft.specs.InMemory.{draft_of};

use crate::expression::expression_names;
use crate::name::place_names;
use crate::statement::statement_names;
use loft_listing_line::{Deed, OperationRow};
use loft_scopes::{Scope, Table};

/// Whether the names in what an operation does are declared, each as what it has to be there.
fn instruction_names(table: &Table, scope: Scope, deed: &Deed) -> bool
    ensures { result ≡ instruction_names table.now scope (deed_of deed.now) }
{
    match deed {
        Deed::Do(statement) => statement_names(table, scope, statement),
        Deed::Stop { statement, .. } => statement_names(table, scope, statement),
        Deed::Branch { test, .. } => expression_names(table, scope, test),
        Deed::Enter => true,
        Deed::Count(count) => expression_names(table, scope, count),
        Deed::Turn { .. } => true,
        Deed::Jump { .. } => true,
        Deed::End => true,
    }
}

/// Whether the names of an operation are declared, each as what it has to be there, as they are seen
/// from this scope (docs/CODE.md, "Names in a listing").
pub fn operation_names(table: &Table, scope: Scope, operation: &OperationRow) -> bool
    ensures { result ≡ operation_names table.now scope (draft_of operation.now) }
{
    place_names(table, scope, &operation.place) && instruction_names(table, scope, &operation.deed)
}
