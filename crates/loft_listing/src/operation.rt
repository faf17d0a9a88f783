//! The lines of operations.

ghost use Rattle.std.specs.Prelude.{◌≡◌, map};
ghost use Rattle.loft_code.specs.View.{operation_of, line_of};
ghost use Rattle.loft_listing_line.specs.RowsFit.{IsOneLineInstruction, IsOneLineRow};
ghost use Rattle.loft_listing_line.specs.RowView.{deed_of, row_of};
ghost use Rattle.loft_listing.specs.Making.{Adds, Makes};
ghost use Rattle.loft_listing.specs.Lines.{called_operation, operation_line, operation_lines};

use crate::expression::expression;
use crate::outer::place;
use crate::statement::{action, call, pause};
use crate::text::Listing;
use loft_base::Room;
use loft_code::{CodeLine, Op};
use loft_listing_line::{Deed, OperationRow, Row};
use loft_tree::{Heads, Signature};

/// What an operation does.
fn deed(room: &mut Room, heads: &Heads, module: &Signature, op: &Op) -> Deed
    ensures named { Makes room.old room.new
        (deed_of result ≡ called_operation heads.now «module».now (operation_of op.now)) }
    ensures line { IsOneLineInstruction (deed_of result) }
{
    match op {
        Op::Do(done) => Deed::Do(action(room, heads, module, done)),
        Op::Hold { stop, pause: held } => Deed::Stop {
            number: *stop,
            statement: pause(room, heads, module, held),
        },
        Op::Run {
            stop,
            module: called,
            arguments,
        } => Deed::Stop {
            number: *stop,
            statement: call(room, heads, module, *called, arguments.as_slice()),
        },
        Op::Branch { target, test } => Deed::Branch {
            target: *target,
            test: expression(room, heads, module, test),
        },
        Op::Enter => Deed::Enter,
        Op::Count(count) => Deed::Count(expression(room, heads, module, count)),
        Op::Turn { target } => Deed::Turn { target: *target },
        Op::Jump { target } => Deed::Jump { target: *target },
        Op::End => Deed::End,
    }
}

/// The line of the operation with this number.
fn operation(
    room: &mut Room,
    heads: &Heads,
    module: &Signature,
    number: u64,
    line: &CodeLine,
) -> Row
    ensures named { Makes room.old room.new
        (row_of result ≡ operation_line heads.now «module».now number (line_of line.now)) }
    ensures line { IsOneLineRow (row_of result) }
{
    Row::Operation(OperationRow {
        number,
        place: place(room, heads, line.place),
        depth: line.depth,
        deed: deed(room, heads, module, &line.op),
    })
}

/// The lines of the operations of a module, numbered from 0.
pub fn put_operations(listing: &mut Listing, heads: &Heads, module: &Signature, lines: &[CodeLine])
    ensures { Adds listing.old listing.new
        (operation_lines heads.now «module».now 0 (map line_of lines.now)) }
{
    for (number, line) in lines.iter().enumerate() {
        let row = operation(&mut listing.room, heads, module, number as u64, line);
        listing.put(row);
    }
}
