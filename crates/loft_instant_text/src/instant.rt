//! The text of an instant, and its length.

ghost use Rattle.std.specs.Prelude.{◌≡◌, ◌-◌, ◌^◌, map, min, length};
ghost use Rattle.loft_value_text.specs.Appending.{Appends};
ghost use Rattle.loft_orders.specs.Lines.{text_of, batch_lines, leave_line, leave_lines, instant_lines};

use crate::ends::{are_in_order, ends_from, push_ends};
use crate::lines::{InOneLine, push_leave_line, push_order_line};
use loft_base::SchedId;
use loft_orders::{Ended, InstantNote, Mark, Order, Orders, Sent};
use loft_tree::Heads;
use loft_value_text::{TextLength, TextWriter};

/// How long the text is that a report has of an instant (docs/REPORT.md, "An instant"), by its batch
/// and what it did. Where it is longer than the largest number, that number. It takes no memory. Its
/// time is in proportion to the batch and the note where the ends that the batch made stand in its
/// order, as those of an instant do. The text is the same whose instant it is.
pub fn note_length(heads: &Heads, _s: SchedId, batch: &Orders, note: &InstantNote) -> u64
    ensures { result ≡ min (2 ^ 64 - 1)
        (length (text_of (instant_lines heads.now batch.now note.now))) }
{
    let mut length = TextLength::new();
    push_instant(&mut length, heads, batch.as_slice(), note);
    length.count
}

/// The text of an instant: its number, its batch, its acts, who left, who stands how, and which
/// shared variables changed.
#[tactic(auto, using(crate::proofs::InstantLemmas::instant_parts))]
pub fn push_instant<W: TextWriter>(line: &mut W, heads: &Heads, batch: &[Order], note: &InstantNote)
    ensures { Appends W.is_whole W.kept W.extended line.old line.new
        (text_of (instant_lines heads.now batch.now note.now)) }
{
    line.text("instant ");
    line.number(note.number);
    line.byte(b'\n');
    push_batch(
        line,
        heads,
        note.stopped.as_slice(),
        batch,
        note.marks.as_slice(),
    );
    push_lines(line, heads, note.acts.as_slice());
    push_leavers(line, heads, note.sent.as_slice());
    push_lines(line, heads, note.stands.as_slice());
    push_lines(line, heads, note.changed.as_slice());
}

/// The orders of a batch, each with its mark and the ends that it made.
fn push_batch<W: TextWriter>(
    line: &mut W,
    heads: &Heads,
    stopped: &[Ended],
    batch: &[Order],
    marks: &[Mark],
)
    ensures { Appends W.is_whole W.kept W.extended line.old line.new
        (text_of (batch_lines heads.now stopped.now 0 batch.now marks.now)) }
{
    let in_order = are_in_order(stopped);
    let mut left = stopped;
    for index in 0..batch.len().min(marks.len()) {
        let (here, rest) = ends_from(index as u64, left, in_order);
        push_order_line(line, heads, marks[index], &batch[index]);
        line.byte(b'\n');
        push_ends(line, heads, index as u64, here);
        left = rest;
    }
}

/// A line for each item.
fn push_lines<T: InOneLine, W: TextWriter>(line: &mut W, heads: &Heads, items: &[T])
    ensures { Appends W.is_whole W.kept W.extended line.old line.new
        (text_of (map (T.text heads.now) items.now)) }
{
    for item in items {
        item.push_line(line, heads);
        line.byte(b'\n');
    }
}

/// Who left.
fn push_leavers<W: TextWriter>(line: &mut W, heads: &Heads, sents: &[Sent])
    ensures { Appends W.is_whole W.kept W.extended line.old line.new
        (text_of (leave_lines heads.now sents.now)) }
{
    for sent in sents {
        push_leaver(line, heads, sent);
    }
}

/// The line of the thread that leaves, where an order moves one.
fn push_leaver<W: TextWriter>(line: &mut W, heads: &Heads, sent: &Sent)
    ensures { Appends W.is_whole W.kept W.extended line.old line.new
        (text_of (leave_line heads.now sent.now.to sent.now.order)) }
{
    if let Order::Arrive(thread) = &sent.order {
        push_leave_line(line, heads, thread.as_thread().id, sent.to);
        line.byte(b'\n');
    }
}
