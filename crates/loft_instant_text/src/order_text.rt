//! The texts of orders: each function appends one.

ghost use Rattle.std.specs.Prelude.{◌++◌, codes};
ghost use Rattle.loft_value_text.specs.Appending.{Appends};
ghost use Rattle.loft_orders.specs.Text.{space, separated, module_name, event_name, id_text, value_text, end_text, sent_value, order_text};

use crate::thread_text::push_thread;
use loft_base::{EventId, ModuleId, ThreadId, Value};
use loft_orders::{End, Order};
use loft_tree::Heads;
use loft_value_text::{
    TextWriter, push_end, push_event_name, push_id, push_module_name, push_separated,
};

/// A value after the name of an event, where there is one.
pub fn push_sent_value<W: TextWriter>(line: &mut W, value: Option<i64>)
    ensures { Appends W.is_whole W.kept W.extended line.old line.new (sent_value value) }
{
    if let Some(number) = value {
        line.byte(b' ');
        line.signed(number);
    }
}

/// A create.
fn push_create<W: TextWriter>(
    line: &mut W,
    heads: &Heads,
    thread: ThreadId,
    module: ModuleId,
    args: &[Value],
)
    ensures { Appends W.is_whole W.kept W.extended line.old line.new
        (codes "create " ++ (id_text heads.now thread ++ (space
        ++ (module_name heads.now «module» ++ (codes "("
        ++ (separated (value_text heads.now) args.now ++ codes ")")))))) }
{
    line.text("create ");
    push_id(line, heads, thread);
    line.byte(b' ');
    push_module_name(line, heads, module);
    line.byte(b'(');
    push_separated(line, heads, args);
    line.byte(b')');
}

/// A word, and the name of a thread.
fn push_word_and_id<W: TextWriter>(line: &mut W, heads: &Heads, word: &str, thread: ThreadId)
    ensures { Appends W.is_whole W.kept W.extended line.old line.new
        (word.now ++ id_text heads.now thread) }
{
    line.text(word);
    push_id(line, heads, thread);
}

/// An order.
pub fn push_order<W: TextWriter>(line: &mut W, heads: &Heads, order: &Order)
    ensures { Appends W.is_whole W.kept W.extended line.old line.new
        (order_text heads.now order.now) }
{
    match order {
        Order::Create {
            thread,
            module,
            args,
        } => push_create(line, heads, *thread, *module, args.as_slice()),
        Order::Arrive(thread) => {
            line.text("arrive ");
            push_thread(line, heads, thread.as_thread());
        }
        Order::Stop(thread) => push_word_and_id(line, heads, "stop ", *thread),
        Order::Suspend(thread) => push_word_and_id(line, heads, "suspend ", *thread),
        Order::Resume(thread) => push_word_and_id(line, heads, "resume ", *thread),
        Order::Broadcast { event, value } => push_broadcast(line, heads, *event, *value),
        Order::Ended { thread, end } => push_ended(line, heads, *thread, *end),
    }
}

/// A broadcast.
fn push_broadcast<W: TextWriter>(line: &mut W, heads: &Heads, event: EventId, value: Option<i64>)
    ensures { Appends W.is_whole W.kept W.extended line.old line.new
        (codes "broadcast " ++ (event_name heads.now event ++ sent_value value)) }
{
    line.text("broadcast ");
    push_event_name(line, heads, event);
    push_sent_value(line, value);
}

/// The order that tells of an end.
fn push_ended<W: TextWriter>(line: &mut W, heads: &Heads, thread: ThreadId, end: End)
    ensures { Appends W.is_whole W.kept W.extended line.old line.new
        (codes "ended " ++ (id_text heads.now thread ++ (space ++ end_text heads.now end))) }
{
    push_word_and_id(line, heads, "ended ", thread);
    line.byte(b' ');
    push_end(line, heads, end);
}
