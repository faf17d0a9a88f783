//! Writing lines.

ghost use Rattle.std.specs.Prelude.{◌≡◌, ◌++◌, true, codes};
ghost use Rattle.std.specs.Fmt.{decimal};
ghost use Rattle.loft_tree.specs.View.{expression_of, statement_of};
ghost use Rattle.loft_show.specs.Canon.{space};
ghost use Rattle.loft_show.specs.PartReads.{IsOneLine};
ghost use Rattle.loft_listing_line.specs.Instructions.{feed, instruction_text, statement_text, value_text};
ghost use Rattle.loft_listing_line.specs.Rows.{line_text};
ghost use Rattle.loft_listing_line.specs.RowsFit.{IsOneLineInstruction, IsOneLineRow};
ghost use Rattle.loft_listing_line.specs.RowView.{deed_of, operation_of, row_of};

use crate::row::{Deed, OperationRow, Row};
use loft_base::Out;
use loft_lex::Word;
use loft_show::{
    put_bare_line, put_brace_line, put_expression, put_head, put_item, put_local, put_order,
    put_outside_line, put_place, put_statement_line,
};
use loft_tree::{Expr, Stmt};

/// Appends bytes and the digits of a number.
fn put_number(out: &mut Out, before: &[u8], number: u64)
    ensures before { out.new.is_whole ≡ true → out.old.is_whole ≡ true }
    ensures text { out.new.is_whole ≡ true → out.new.text.items ≡ out.old.text.items
        ++ (before.now ++ decimal number) }
{
    out.put(before);
    match number.to_string(*out.text.allocator()) {
        Ok(digits) => out.put(digits.as_bytes()),
        Err(_) => out.is_whole = false,
    }
}

/// Appends a blank, an expression and the end of the line.
fn put_value(out: &mut Out, value: &Expr)
    ensures before { out.new.is_whole ≡ true → out.old.is_whole ≡ true }
    ensures text { out.new.is_whole ≡ true → out.new.text.items ≡ out.old.text.items
        ++ value_text (expression_of value.now) }
{
    put_expression(out, b" ", value);
    out.put(b"\n")
}

/// Appends bytes, the number of a target and the end of the line.
fn put_target(out: &mut Out, before: &[u8], target: u64)
    ensures before { out.new.is_whole ≡ true → out.old.is_whole ≡ true }
    ensures text { out.new.is_whole ≡ true → out.new.text.items ≡ out.old.text.items
        ++ (before.now ++ (decimal target ++ feed)) }
{
    put_number(out, before, target);
    out.put(b"\n")
}

/// Appends `@`, the number of a stop, a blank and the line of its statement.
fn put_stop(out: &mut Out, number: u64, statement: &Stmt)
    requires { IsOneLine (statement_of statement.now) }
    ensures before { out.new.is_whole ≡ true → out.old.is_whole ≡ true }
    ensures text { out.new.is_whole ≡ true → out.new.text.items ≡ out.old.text.items
        ++ (codes "@" ++ (decimal number
        ++ (space ++ statement_text (statement_of statement.now)))) }
{
    put_number(out, b"@", number);
    out.put(b" ");
    put_statement_line(out, 0, statement)
}

/// Appends what an operation does, up to the end of its line.
fn put_deed(out: &mut Out, deed: &Deed)
    requires { IsOneLineInstruction (deed_of deed.now) }
    ensures before { out.new.is_whole ≡ true → out.old.is_whole ≡ true }
    ensures text { out.new.is_whole ≡ true → out.new.text.items ≡ out.old.text.items
        ++ instruction_text (deed_of deed.now) }
{
    match deed {
        Deed::Do(statement) => put_statement_line(out, 0, statement),
        Deed::Stop { number, statement } => put_stop(out, *number, statement),
        Deed::Branch { target, test } => {
            put_number(out, b"branch ", *target);
            put_value(out, test)
        }
        Deed::Enter => out.put(b"enter\n"),
        Deed::Count(count) => {
            out.put(b"count");
            put_value(out, count)
        }
        Deed::Turn { target } => put_target(out, b"turn ", *target),
        Deed::Jump { target } => put_target(out, b"jump ", *target),
        Deed::End => out.put(b"end\n"),
    }
}

/// Appends the line of an operation.
fn put_operation(out: &mut Out, row: &OperationRow)
    requires { IsOneLineRow (operation_of row.now) }
    ensures before { out.new.is_whole ≡ true → out.old.is_whole ≡ true }
    ensures text { out.new.is_whole ≡ true → out.new.text.items ≡ out.old.text.items
        ++ line_text (operation_of row.now) }
{
    put_number(out, b"", row.number);
    put_place(out, &row.place);
    put_number(out, b" ", row.depth);
    out.put(b" ");
    put_deed(out, &row.deed)
}

/// Appends the line that says this.
#[tactic(auto, using(crate::proofs::OneRow::no_body))]
pub fn put_row(out: &mut Out, row: &Row)
    requires { IsOneLineRow (row_of row.now) }
    ensures before { out.new.is_whole ≡ true → out.old.is_whole ≡ true }
    ensures text { out.new.is_whole ≡ true → out.new.text.items ≡ out.old.text.items
        ++ line_text (row_of row.now) }
{
    match row {
        Row::Title => out.put(b"loft-listing 1\n"),
        Row::Item(item) => put_item(out, item),
        Row::Head(head) => put_head(out, head),
        Row::Local(local) => put_local(out, 0, local),
        Row::Operation(operation) => put_operation(out, operation),
        Row::End => put_bare_line(out, 0, Word::End),
        Row::Client(name) => put_outside_line(out, name),
        Row::Order(order) => put_order(out, order),
        Row::Close => put_brace_line(out),
    }
}

/// Appends the line that says this, and lets go what it says (docs/CODE.md, "Lines of a listing").
pub fn write_row(out: &mut Out, row: Row)
    requires { IsOneLineRow (row_of row) }
    ensures before { out.new.is_whole ≡ true → out.old.is_whole ≡ true }
    ensures text { out.new.is_whole ≡ true → out.new.text.items ≡ out.old.text.items
        ++ line_text (row_of row) }
{
    put_row(out, &row);
    drop(row);
}
