//! The texts of waits and threads: each function appends one.

ghost use Rattle.std.specs.Prelude.{◌++◌, codes};
ghost use Rattle.std.specs.Fmt.{signed_decimal};
ghost use Rattle.loft_value_text.specs.Appending.{Appends};
ghost use Rattle.loft_orders.specs.declared.thread.Wait.TheVariants.{Events};
ghost use Rattle.loft_orders.specs.Text.{space, colon, id_text, left_text, events_word, wait_text, thread_text};

use loft_base::{EventId, ThreadId};
use loft_orders::{Thread, Wait};
use loft_tree::Heads;
use loft_value_text::{TextWriter, push_id, push_separated, push_separated_by};

/// The instants that are left of a wait, or a sign that there is no number.
fn push_left<W: TextWriter>(line: &mut W, left: Option<i64>)
    ensures { Appends W.is_whole W.kept W.extended line.old line.new (left_text left) }
{
    match left {
        Some(number) => line.signed(number),
        None => line.byte(b'-'),
    }
}

/// The word of a wait for an event and for these others.
fn push_events_word<W: TextWriter>(line: &mut W, others: &[EventId])
    ensures { Appends W.is_whole W.kept W.extended line.old line.new (events_word others.now) }
{
    match others {
        [] => line.text("await:"),
        [_, ..] => line.text("select:"),
    }
}

/// A wait for events.
fn push_events<W: TextWriter>(line: &mut W, heads: &Heads, events: &[EventId], left: Option<i64>)
    ensures { Appends W.is_whole W.kept W.extended line.old line.new
        (wait_text heads.now (Events events.now left)) }
{
    let [_, others @ ..] = events else {
        return;
    };
    push_events_word(line, others);
    push_left(line, left);
    line.byte(b':');
    push_separated(line, heads, events);
}

/// A wait for the end of a thread.
fn push_join<W: TextWriter>(line: &mut W, heads: &Heads, thread: ThreadId, left: Option<i64>)
    ensures { Appends W.is_whole W.kept W.extended line.old line.new
        (codes "join:" ++ (left_text left ++ (colon ++ id_text heads.now thread))) }
{
    line.text("join:");
    push_left(line, left);
    line.byte(b':');
    push_id(line, heads, thread);
}

/// What a thread waits for.
fn push_wait<W: TextWriter>(line: &mut W, heads: &Heads, wait: &Wait)
    ensures { Appends W.is_whole W.kept W.extended line.old line.new
        (wait_text heads.now wait.now) }
{
    match wait {
        Wait::New => line.text("new"),
        Wait::Coop(left) => {
            line.text("coop:");
            line.signed(*left);
        }
        Wait::Events { events, left } => push_events(line, heads, events.as_slice(), *left),
        Wait::Index { .. } => {}
        Wait::Next => line.text("next"),
        Wait::Join { thread, left } => push_join(line, heads, *thread, *left),
        Wait::Halt => line.text("halt"),
    }
}

/// A thread that waits.
pub fn push_thread<W: TextWriter>(line: &mut W, heads: &Heads, thread: &Thread)
    ensures { Appends W.is_whole W.kept W.extended line.old line.new
        (thread_text heads.now thread.now) }
{
    push_id(line, heads, thread.id);
    push_code_and_mask(line, thread.code, thread.mask);
    line.byte(b' ');
    push_wait(line, heads, &thread.wait);
    line.byte(b' ');
    push_separated_by(line, heads, " ", thread.frames.as_slice());
}

/// The last code and mask of a thread, each after a blank.
fn push_code_and_mask<W: TextWriter>(line: &mut W, code: i64, mask: i64)
    ensures { Appends W.is_whole W.kept W.extended line.old line.new
        (space ++ (signed_decimal code ++ (space ++ signed_decimal mask))) }
{
    line.byte(b' ');
    line.signed(code);
    line.byte(b' ');
    line.signed(mask);
}
