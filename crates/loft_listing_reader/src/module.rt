//! The code of modules.

ghost use Rattle.std.specs.Prelude.{◌≡◌, ◌<◌, ◌^◌, ◌++◌, length, map, IfOk, OnOk};
ghost use Rattle.loft_tree.specs.Fits.{Each};
ghost use Rattle.loft_tree.specs.View.{declaration_of};
ghost use Rattle.loft_scopes.specs.Modules.{next_module};
ghost use Rattle.loft_code.specs.View.{lines_of};
ghost use Rattle.loft_listing_draft.specs.Drafts.{Draft as PlainDraft, DraftItem, operations_of};
ghost use Rattle.loft_listing_draft.specs.InMemory.{draft_of, held_operation, IsInMemory, HeldFits};
ghost use Rattle.loft_listing_reader.specs.AllWrong.{IsDraft};
ghost use Rattle.loft_listing_reader.specs.Numbered.{module_lines, modules_from, numbered_line};

use crate::line::code_line;
use loft_base::NoMemory;
use loft_code::ModuleCode;
use loft_listing_draft::{Draft, OperationLine};
use loft_scopes::{Scope, Table};
use loft_tree::Item;
use std::alloc::Global;

/// The code of a module with these operations.
fn module_code(
    alloc: Global,
    table: &Table,
    scope: Scope,
    operations: &[OperationLine],
) -> Result<ModuleCode, NoMemory>
    requires { Each HeldFits operations.now }
    ensures { IfOk result (λ code. lines_of code
        ≡ map (λ o. numbered_line table.now scope (draft_of o.operation)) operations.now) }
{
    let mut lines = Vec::new(alloc);
    for operation in operations {
        lines.push(code_line(alloc, table, scope, &operation.operation)?)?;
    }
    Ok(ModuleCode { lines })
}

/// One more declaration: the code of a module is put after that of those before it.
fn put_item(
    alloc: Global,
    table: &Table,
    item: &Item,
    operations: &[OperationLine],
    code: &mut Vec<ModuleCode>,
) -> Result<(), NoMemory>
    requires fit { Each HeldFits operations.now }
    requires few { length code.old.items < 2 ^ 32 }
    ensures item { (i : DraftItem) → declaration_of item.now ≡ i.declaration
        → map held_operation operations.now ≡ operations_of i
        → OnOk result (map lines_of code.new.items ≡ map lines_of code.old.items
        ++ module_lines table.now (length code.old.items) i.declaration i.operations) }
    ensures counted { OnOk result (length code.new.items
        ≡ next_module (length code.old.items) (declaration_of item.now)) }
{
    if let Item::Module { .. } = item {
        let scope = Scope::Within(code.len() as u32);
        code.push(module_code(alloc, table, scope, operations)?)?;
    }
    Ok(())
}

/// The code of the modules of a draft (docs/CODE.md, "Listings that are read").
///
/// # Errors
///
/// Out of memory.
pub fn modules_code(
    alloc: Global,
    table: &Table,
    draft: &Draft,
) -> Result<Vec<ModuleCode>, NoMemory>
    requires { IsDraft draft.now }
    ensures { (d : PlainDraft) → IsInMemory draft.now d
        → IfOk result (λ code. map lines_of code.items ≡ modules_from table.now 0 d) }
{
    let mut code = Vec::new(alloc);
    for (index, item) in draft.items.iter().enumerate() {
        put_item(
            alloc,
            table,
            item,
            draft.operations[index].as_slice(),
            &mut code,
        )?;
    }
    Ok(code)
}
