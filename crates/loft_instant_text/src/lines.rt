//! The lines of an instant: each function appends one, without its line feed.

ghost use Rattle.std.specs.Prelude.{◌++◌, ℕ, List, codes};
ghost use Rattle.loft_value_text.specs.Appending.{Appends};
ghost use Rattle.loft_tree.specs.declared.heads.Heads.{Heads};
ghost use Rattle.loft_orders.specs.Text.{space, event_name, sent_value, id_text, order_text};
ghost use Rattle.loft_orders.specs.Lines.{end_line, mark_word, receiver_name, leave_place, act_line, at_line, shared_line};

use crate::order_text::{push_order, push_sent_value};
use crate::thread_text::push_thread;
use loft_base::{EventId, ThreadId};
use loft_orders::{Act, Change, End, Mark, Order, Sent, Thread, To};
use loft_tree::Heads;
use loft_value_text::{
    TextWriter, push_end, push_event_name, push_id, push_scheduler_name, push_shared_name,
};

/// An end.
pub fn push_end_line<W: TextWriter>(line: &mut W, heads: &Heads, thread: ThreadId, end: End)
    ensures { Appends W.is_whole W.kept W.extended line.old line.new
        (end_line heads.now thread end) }
{
    line.text("end ");
    push_id(line, heads, thread);
    line.byte(b' ');
    push_end(line, heads, end);
}

/// What became of an order.
fn push_mark<W: TextWriter>(line: &mut W, mark: Mark)
    ensures { Appends W.is_whole W.kept W.extended line.old line.new (mark_word mark) }
{
    match mark {
        Mark::Done => line.text("in "),
        Mark::Void => line.text("void "),
        Mark::Full => line.text("full "),
    }
}

/// An order of a batch, with what became of it.
pub fn push_order_line<W: TextWriter>(line: &mut W, heads: &Heads, mark: Mark, order: &Order)
    ensures { Appends W.is_whole W.kept W.extended line.old line.new
        (mark_word mark ++ order_text heads.now order.now) }
{
    push_mark(line, mark);
    push_order(line, heads, order);
}

/// The name of the scheduler to which an order goes, and nothing where it goes elsewhere.
fn push_receiver_name<W: TextWriter>(line: &mut W, heads: &Heads, to: To)
    ensures { Appends W.is_whole W.kept W.extended line.old line.new (receiver_name heads.now to) }
{
    match to {
        To::Sched(s) => push_scheduler_name(line, heads, s),
        To::Others(_) | To::All | To::Workers => {}
    }
}

/// Where a thread goes that leaves.
fn push_leave_place<W: TextWriter>(line: &mut W, heads: &Heads, to: To)
    ensures { Appends W.is_whole W.kept W.extended line.old line.new (leave_place heads.now to) }
{
    match to {
        To::Sched(s) => push_scheduler_name(line, heads, s),
        To::Others(_) | To::All => {}
        To::Workers => line.text("unlinked"),
    }
}

/// A printed line.
fn push_print_line<W: TextWriter>(line: &mut W, heads: &Heads, thread: ThreadId, printed: &[u8])
    ensures { Appends W.is_whole W.kept W.extended line.old line.new
        (codes "print " ++ (id_text heads.now thread ++ (space ++ printed.now))) }
{
    line.text("print ");
    push_id(line, heads, thread);
    line.byte(b' ');
    line.bytes(printed);
}

/// A generated event.
fn push_event_line<W: TextWriter>(
    line: &mut W,
    heads: &Heads,
    thread: ThreadId,
    event: EventId,
    value: Option<i64>,
)
    ensures { Appends W.is_whole W.kept W.extended line.old line.new
        (codes "gen " ++ (id_text heads.now thread ++ (space ++ (event_name heads.now event
        ++ sent_value value)))) }
{
    line.text("gen ");
    push_id(line, heads, thread);
    line.byte(b' ');
    push_event_name(line, heads, event);
    push_sent_value(line, value);
}

/// An order that a thread sent.
fn push_sent_line<W: TextWriter>(line: &mut W, heads: &Heads, thread: ThreadId, sent: &Sent)
    ensures { Appends W.is_whole W.kept W.extended line.old line.new
        (codes "out " ++ (id_text heads.now thread ++ (space ++ (receiver_name heads.now sent.now.to
        ++ (space ++ order_text heads.now sent.now.order))))) }
{
    line.text("out ");
    push_id(line, heads, thread);
    line.byte(b' ');
    push_receiver_name(line, heads, sent.to);
    line.byte(b' ');
    push_order(line, heads, &sent.order);
}

/// A thread that leaves.
pub fn push_leave_line<W: TextWriter>(line: &mut W, heads: &Heads, thread: ThreadId, to: To)
    ensures { Appends W.is_whole W.kept W.extended line.old line.new
        (codes "leave " ++ (id_text heads.now thread ++ (space ++ leave_place heads.now to))) }
{
    line.text("leave ");
    push_id(line, heads, thread);
    line.byte(b' ');
    push_leave_place(line, heads, to);
}

/// What has a line of its own in an instant.
pub trait InOneLine {
    /// Its line, where a program declares these heads.
    ghost text: { Heads → Self → List ℕ };

    /// Appends its line.
    fn push_line<W: TextWriter>(&self, line: &mut W, heads: &Heads)
        ensures { Appends W.is_whole W.kept W.extended line.old line.new
            (text heads.now self.now) };
}

impl InOneLine for Act {
    ghost text = { act_line };

    fn push_line<W: TextWriter>(&self, line: &mut W, heads: &Heads) {
        match self {
            Act::Print {
                thread,
                line: printed,
            } => push_print_line(line, heads, *thread, printed.as_slice()),
            Act::Gen {
                thread,
                event,
                value,
            } => push_event_line(line, heads, *thread, *event, *value),
            Act::Out { thread, sent } => push_sent_line(line, heads, *thread, sent.as_sent()),
            Act::End { thread, end } => push_end_line(line, heads, *thread, *end),
        }
    }
}

/// A thread that ran, as it stands after its instant.
impl InOneLine for Thread {
    ghost text = { at_line };

    fn push_line<W: TextWriter>(&self, line: &mut W, heads: &Heads) {
        line.text("at ");
        push_thread(line, heads, self);
    }
}

/// A shared variable with its new value.
impl InOneLine for Change {
    ghost text = { λ h change. shared_line h change.shared change.value };

    fn push_line<W: TextWriter>(&self, line: &mut W, heads: &Heads) {
        line.text("shared ");
        push_shared_name(line, heads, self.shared);
        line.byte(b' ');
        line.signed(self.value);
    }
}
