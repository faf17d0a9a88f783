//! The line of an order.

ghost use Rattle.std.specs.Prelude.{◌≡◌, ◌++◌, true, Some, IfOk, IfSome};
ghost use Rattle.loft_orders.specs.declared.order.Mark.{Mark};
ghost use Rattle.loft_orders.specs.declared.order.Order.{Order};
ghost use Rattle.loft_orders.specs.Lines.{mark_word};
ghost use Rattle.loft_orders.specs.Text.{order_text};
ghost use Rattle.loft_order_lines.specs.Texts.{OwnNames};
ghost use Rattle.loft_order_lines.specs.Says.{Says};
ghost use Rattle.loft_order_lines.specs.Words.{word_of_mark};
ghost use Rattle.loft_report_shape.specs.Word.{spelling};
ghost use Rattle.std.specs.Str.{bytes_eq};

use crate::cut::cut_at;
use crate::order::order_of;
use loft_base::{NoMemory, Room};
use loft_instant_text::push_order_line;
use loft_orders::{Mark, Order};
use loft_report_sets::word_of;
use loft_report_shape::Word;
use loft_tree::Heads;
use loft_value_text::LineBuffer;
use std::alloc::Global;

/// The mark that is spelled so, if one is.
fn mark_of(bytes: &[u8]) -> Option<Mark>
    ensures { (m : Mark) → bytes.now ≡ spelling (word_of_mark m) → result ≡ Some m }
{
    match word_of(bytes)? {
        Word::In => Some(Mark::Done),
        Word::Void => Some(Mark::Void),
        Word::Full => Some(Mark::Full),
        _ => None,
    }
}

/// Whether the line is what a report has of the order with this mark.
fn is_line_of(room: &mut Room, heads: &Heads, line: &[u8], mark: Mark, order: &Order) -> bool
    ensures before { room.new.is_whole ≡ true → room.old.is_whole ≡ true }
    ensures same { room.new.is_whole ≡ true → result ≡ bytes_eq line.now (mark_word mark ++ order_text heads.now order.now) }
{
    let mut written = LineBuffer::new(room.alloc);
    push_order_line(&mut written, heads, mark, order);
    match written.whole() {
        Ok(written) => line == written,
        Err(_) => {
            room.is_whole = false;
            false
        }
    }
}

/// The order that the line says, if it says one of this program (docs/REPORT.md, "An instant"). What is read is written
/// again and compared with the line.
fn said(room: &mut Room, heads: &Heads, line: &[u8]) -> Option<Order>
    requires { OwnNames heads.now }
    ensures before { room.new.is_whole ≡ true → room.old.is_whole ≡ true }
    ensures says { room.new.is_whole ≡ true → IfSome result (Says heads.now line.now) }
    ensures exact { room.new.is_whole ≡ true → (o : Order) → Says heads.now line.now o → result ≡ Some o }
{
    let (word, text) = cut_at(line, b' ');
    let mark = mark_of(word)?;
    let order = order_of(room, heads, text)?;
    if is_line_of(room, heads, line, mark, &order) {
        Some(order)
    } else {
        None
    }
}

/// The order that a line of a batch says, without its line feed: the one of which a report has this line, with some mark
/// (docs/REPORT.md, "An instant"). None if the line says no order of this program, as one that names what isn't declared.
///
/// # Errors
///
/// Out of memory.
pub fn read_order(alloc: Global, heads: &Heads, line: &[u8]) -> Result<Option<Order>, NoMemory>
    requires { OwnNames heads.now }
    ensures says { IfOk result (λ found. IfSome found (Says heads.now line.now)) }
    ensures exact { (o : Order) → Says heads.now line.now o → IfOk result (λ found. found ≡ Some o) }
{
    let mut room = Room::new(alloc);
    let order = said(&mut room, heads, line);
    room.done(order)
}
