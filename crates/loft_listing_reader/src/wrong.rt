//! The first operation with a wrong name.

ghost use Rattle.std.specs.Prelude.{map};
ghost use Rattle.loft_listing_draft.specs.Drafts.{Draft as PlainDraft};
ghost use Rattle.loft_listing_draft.specs.InMemory.{held_operation, IsInMemory};
ghost use Rattle.loft_listing_names.specs.Wrong.{modules_wrong, operation_wrong, operations_wrong};
ghost use Rattle.loft_listing_reader.specs.AllWrong.{IsDraft, IsLeastOf};

use crate::earlier::earlier;
use loft_listing_draft::{Draft, OperationLine};
use loft_listing_names::{offsets_are_free, operation_names};
use loft_scopes::{Scope, Table, next_module};

/// The offset of an operation, where it has a wrong name.
fn wrong_at(table: &Table, scope: Scope, operation: &OperationLine) -> Option<u32>
    ensures { IsLeastOf result (operation_wrong table.now scope (held_operation operation.now)) }
{
    offsets_are_free();
    if operation_names(table, scope, &operation.operation) {
        None
    } else {
        Some(operation.at)
    }
}

/// The offset of the first of these operations with a wrong name.
fn first_wrong(table: &Table, scope: Scope, operations: &[OperationLine]) -> Option<u32>
    ensures { IsLeastOf result
        (operations_wrong table.now scope (map held_operation operations.now)) }
{
    let mut first = None;
    for operation in operations {
        first = earlier(first, wrong_at(table, scope, operation));
    }
    first
}

/// The offset of the first operation of a draft with a wrong name (docs/CODE.md, "Names in a
/// listing").
pub fn first_wrong_operation(table: &Table, draft: &Draft) -> Option<u32>
    requires { IsDraft draft.now }
    ensures { (d : PlainDraft) → IsInMemory draft.now d
        → IsLeastOf result (modules_wrong table.now 0 d) }
{
    let mut first = None;
    let mut number = 0;
    for (index, item) in draft.items.iter().enumerate() {
        let operations = draft.operations[index].as_slice();
        first = earlier(first, first_wrong(table, Scope::Within(number), operations));
        number = next_module(number, item);
    }
    first
}
