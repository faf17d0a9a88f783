//! The lines of a report, each made whole before any of it is written. One buffer serves for all: each function makes a
//! line in place of what stands there.

ghost use Rattle.std.specs.Prelude.{◌++◌, codes};
ghost use Rattle.std.specs.Fmt.{decimal, signed_decimal};
ghost use Rattle.loft_value_text.specs.Buffer.{Holds};
ghost use Rattle.loft_orders.specs.Text.{space, scheduler_name, id_text, order_text};
ghost use Rattle.loft_orders.specs.Lines.{end_line, mark_word, leave_place};
ghost use Rattle.loft_history.specs.Report.{left_line, standing_line};

use loft_base::{SchedId, ThreadId};
use loft_instant_text::{
    InOneLine, push_end_line, push_leave_line, push_order, push_order_line, push_thread,
};
use loft_orders::{End, Mark, Order, Standing, To};
use loft_tree::Heads;
use loft_value_text::{LineBuffer, push_scheduler_name};

/// Makes the line of an act, of a thread as it stands after its instant, or of a shared variable
/// with its new value.
pub fn make_line<T: InOneLine>(line: &mut LineBuffer, heads: &Heads, item: &T)
    ensures { Holds line.new (T.text heads.now item.now) }
{
    line.clear();
    item.push_line(line, heads);
}

/// Makes the line of a text alone.
pub fn make_text_line(line: &mut LineBuffer, text: &str)
    ensures { Holds line.new text.now }
{
    line.clear();
    line.text(text);
}

/// Makes the line of a word and a number.
pub fn make_number_line(line: &mut LineBuffer, word: &str, number: u64)
    ensures { Holds line.new (word.now ++ decimal number) }
{
    line.clear();
    line.text(word);
    line.number(number);
}

/// Makes the line of a word and the name of a scheduler.
pub fn make_scheduler_line(line: &mut LineBuffer, heads: &Heads, word: &str, s: SchedId)
    ensures { Holds line.new (word.now ++ scheduler_name heads.now s) }
{
    line.clear();
    line.text(word);
    push_scheduler_name(line, heads, s);
}

/// Makes the line of an end.
pub fn make_end_line(line: &mut LineBuffer, heads: &Heads, thread: ThreadId, end: End)
    ensures { Holds line.new (end_line heads.now thread end) }
{
    line.clear();
    push_end_line(line, heads, thread, end);
}

/// Makes the line of an order of a batch.
pub fn make_order_line(line: &mut LineBuffer, heads: &Heads, mark: Mark, order: &Order)
    ensures { Holds line.new (mark_word mark ++ order_text heads.now order.now) }
{
    line.clear();
    push_order_line(line, heads, mark, order);
}

/// Makes the line of an order that is left over at a scheduler.
pub fn make_left_order_line(line: &mut LineBuffer, heads: &Heads, s: SchedId, order: &Order)
    ensures { Holds line.new (left_line heads.now s order.now) }
{
    line.clear();
    push_scheduler_name(line, heads, s);
    line.byte(b' ');
    push_order(line, heads, order);
}

/// Makes the line of a thread that leaves.
pub fn make_leaver_line(line: &mut LineBuffer, heads: &Heads, thread: ThreadId, to: To)
    ensures { Holds line.new
        (codes "leave " ++ (id_text heads.now thread ++ (space ++ leave_place heads.now to))) }
{
    line.clear();
    push_leave_line(line, heads, thread, to);
}

/// Makes the line of a shared variable with this name.
pub fn make_value_line(line: &mut LineBuffer, name: &[u8], value: i64)
    ensures { Holds line.new (codes "shared " ++ (name.now ++ (space ++ signed_decimal value))) }
{
    line.clear();
    line.text("shared ");
    line.bytes(name);
    line.byte(b' ');
    line.signed(value);
}

/// Makes the line of a thread that is linked in the end.
pub fn make_standing_line(line: &mut LineBuffer, heads: &Heads, standing: &Standing)
    ensures { Holds line.new (standing_line heads.now standing.now) }
{
    line.clear();
    line.text(if standing.suspended {
        "suspended "
    } else {
        "linked "
    });
    push_thread(line, heads, &standing.thread);
}
