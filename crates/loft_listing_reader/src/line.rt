//! The code of one operation.

ghost use Rattle.std.specs.Prelude.{◌≡◌, IfOk};
ghost use Rattle.loft_listing_line.specs.RowView.{deed_of};
ghost use Rattle.loft_listing_line.specs.RowsFit.{InstructionFits};
ghost use Rattle.loft_code.specs.View.{line_of, operation_of};
ghost use Rattle.loft_listing_draft.specs.InMemory.{draft_of};
ghost use Rattle.loft_listing_reader.specs.Numbered.{numbered_instruction, numbered_line};

use crate::operation::operation;
use loft_base::NoMemory;
use loft_code::{CodeLine, Op};
use loft_listing_line::{Deed, OperationRow};
use loft_numbers::{number_expression, number_place, number_statement};
use loft_scopes::{Scope, Table};
use std::alloc::Global;

/// What an operation does, with numbers in place of names. A stop keeps its number.
fn code(alloc: Global, table: &Table, scope: Scope, deed: &Deed) -> Result<Op, NoMemory>
    requires { InstructionFits (deed_of deed.now) }
    ensures { IfOk result (λ op. operation_of op
        ≡ numbered_instruction table.now scope (deed_of deed.now)) }
{
    match deed {
        Deed::Do(s) => Ok(operation(0, number_statement(alloc, table, scope, s)?)),
        Deed::Stop { number, statement } => {
            let statement = number_statement(alloc, table, scope, statement)?;
            Ok(operation(*number, statement))
        }
        Deed::Branch { target, test } => Ok(Op::Branch {
            target: *target,
            test: number_expression(alloc, table, scope, test)?,
        }),
        Deed::Enter => Ok(Op::Enter),
        Deed::Count(count) => Ok(Op::Count(number_expression(alloc, table, scope, count)?)),
        Deed::Turn { target } => Ok(Op::Turn { target: *target }),
        Deed::Jump { target } => Ok(Op::Jump { target: *target }),
        Deed::End => Ok(Op::End),
    }
}

/// An operation, with numbers in place of names (docs/CODE.md, "Listings that are read").
pub fn code_line(
    alloc: Global,
    table: &Table,
    scope: Scope,
    row: &OperationRow,
) -> Result<CodeLine, NoMemory>
    requires { InstructionFits (deed_of row.now.deed) }
    ensures { IfOk result (λ line. line_of line
        ≡ numbered_line table.now scope (draft_of row.now)) }
{
    Ok(CodeLine {
        place: number_place(table, scope, &row.place),
        depth: row.depth,
        op: code(alloc, table, scope, &row.deed)?,
    })
}
