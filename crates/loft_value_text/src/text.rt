//! The texts of names, ids and ends: each function appends one to a line.

ghost use Rattle.std.specs.Prelude.{◌++◌, ℕ, List};
ghost use Rattle.std.specs.Fmt.{signed_decimal};
ghost use Rattle.loft_tree.specs.declared.heads.Heads.{Heads};
ghost use Rattle.loft_value_text.specs.Appending.{Appends};
ghost use Rattle.loft_orders.specs.Text.{client_name, separated_by, separated, name_at, scheduler_name, module_name, event_name, shared_name, maker_name, id_text, value_text, at_text, end_text};

use crate::writer::TextWriter;
use loft_base::{EventId, Maker, ModuleId, SchedId, SharedId, ThreadId, Value};
use loft_orders::{At, End};
use loft_tree::{Heads, Name};

/// What can stand in a list of a report.
pub trait Item {
    /// Its text, where a program declares these heads.
    ghost text: { Heads → Self → List ℕ };

    /// Appends its text to a line.
    fn push_to<W: TextWriter>(&self, line: &mut W, heads: &Heads)
        ensures { Appends W.is_whole W.kept W.extended line.old line.new
            (text heads.now self.now) };
}

impl Item for i64 {
    ghost text = { λ _ number. signed_decimal number };

    fn push_to<W: TextWriter>(&self, line: &mut W, _heads: &Heads) {
        line.signed(*self);
    }
}

impl Item for EventId {
    ghost text = { event_name };

    fn push_to<W: TextWriter>(&self, line: &mut W, heads: &Heads) {
        push_event_name(line, heads, *self);
    }
}

impl Item for Value {
    ghost text = { value_text };

    fn push_to<W: TextWriter>(&self, line: &mut W, heads: &Heads) {
        match self {
            Value::Int(number) => line.signed(*number),
            Value::Thread(thread) => push_id(line, heads, *thread),
        }
    }
}

/// The texts of items, with this text between each two.
pub fn push_separated_by<T: Item, W: TextWriter>(
    line: &mut W,
    heads: &Heads,
    between: &str,
    items: &[T],
)
    ensures { Appends W.is_whole W.kept W.extended line.old line.new
        (separated_by between.now (T.text heads.now) items.now) }
{
    let [first, rest @ ..] = items else {
        return;
    };
    first.push_to(line, heads);
    for item in rest {
        line.text(between);
        item.push_to(line, heads);
    }
}

/// The texts of items, with a comma between each two.
pub fn push_separated<T: Item, W: TextWriter>(line: &mut W, heads: &Heads, items: &[T])
    ensures { Appends W.is_whole W.kept W.extended line.old line.new
        (separated (T.text heads.now) items.now) }
{
    push_separated_by(line, heads, ",", items);
}

/// The name with this number, and nothing where there is none.
pub fn push_name_at<W: TextWriter>(line: &mut W, names: &[Name], number: u32)
    ensures { Appends W.is_whole W.kept W.extended line.old line.new (name_at names.now number) }
{
    match names.get(number as usize) {
        Some(name) => line.bytes(name.as_slice()),
        None => {}
    }
}

/// The name of a scheduler.
pub fn push_scheduler_name<W: TextWriter>(line: &mut W, heads: &Heads, s: SchedId)
    ensures { Appends W.is_whole W.kept W.extended line.old line.new (scheduler_name heads.now s) }
{
    push_name_at(line, heads.schedulers.as_slice(), s.0);
}

/// The name of a module, and nothing where there is none.
pub fn push_module_name<W: TextWriter>(line: &mut W, heads: &Heads, module: ModuleId)
    ensures { Appends W.is_whole W.kept W.extended line.old line.new
        (module_name heads.now «module») }
{
    match heads.modules.as_slice().get(module.0 as usize) {
        Some(signature) => line.bytes(signature.name.as_slice()),
        None => {}
    }
}

/// The name of an event, and nothing where there is none.
pub fn push_event_name<W: TextWriter>(line: &mut W, heads: &Heads, event: EventId)
    ensures { Appends W.is_whole W.kept W.extended line.old line.new (event_name heads.now event) }
{
    match heads.events.as_slice().get(event.0 as usize) {
        Some(head) => line.bytes(head.name.as_slice()),
        None => {}
    }
}

/// The name of a shared variable, and nothing where there is none.
pub fn push_shared_name<W: TextWriter>(line: &mut W, heads: &Heads, shared: SharedId)
    ensures { Appends W.is_whole W.kept W.extended line.old line.new
        (shared_name heads.now shared) }
{
    match heads.shared.as_slice().get(shared.0 as usize) {
        Some(head) => line.bytes(head.name.as_slice()),
        None => {}
    }
}

/// The name of a client, and nothing where there is none.
pub fn push_client_name<W: TextWriter>(line: &mut W, heads: &Heads, client: u32)
    ensures { Appends W.is_whole W.kept W.extended line.old line.new
        (client_name heads.now client) }
{
    match heads.clients.as_slice().get(client as usize) {
        Some(head) => line.bytes(head.name.as_slice()),
        None => {}
    }
}

/// Who made a thread.
fn push_maker<W: TextWriter>(line: &mut W, heads: &Heads, maker: Maker)
    ensures { Appends W.is_whole W.kept W.extended line.old line.new (maker_name heads.now maker) }
{
    match maker {
        Maker::Source => line.text("start"),
        Maker::Sched(s) => push_name_at(line, heads.schedulers.as_slice(), s),
        Maker::Client(c) => push_client_name(line, heads, c),
    }
}

/// The name of a thread.
pub fn push_id<W: TextWriter>(line: &mut W, heads: &Heads, thread: ThreadId)
    ensures { Appends W.is_whole W.kept W.extended line.old line.new (id_text heads.now thread) }
{
    push_maker(line, heads, thread.maker);
    line.byte(b'.');
    line.number(thread.seq);
}

/// A point in a program.
fn push_at<W: TextWriter>(line: &mut W, heads: &Heads, at: At)
    ensures { Appends W.is_whole W.kept W.extended line.old line.new (at_text heads.now at) }
{
    push_module_name(line, heads, at.module);
    line.byte(b':');
    line.number(u64::from(at.stop));
}

/// How a thread ended.
pub fn push_end<W: TextWriter>(line: &mut W, heads: &Heads, end: End)
    ensures { Appends W.is_whole W.kept W.extended line.old line.new (end_text heads.now end) }
{
    match end {
        End::Done => line.text("done"),
        End::Stopped => line.text("stopped"),
        End::Full => line.text("full"),
        End::Div(at) => push_reason(line, heads, "div ", at),
        End::Deep(at) => push_reason(line, heads, "deep ", at),
        End::Over(at) => push_reason(line, heads, "over ", at),
        End::Flood(at) => push_reason(line, heads, "flood ", at),
    }
}

/// A word, and a point in a program.
fn push_reason<W: TextWriter>(line: &mut W, heads: &Heads, word: &str, at: At)
    ensures { Appends W.is_whole W.kept W.extended line.old line.new
        (word.now ++ at_text heads.now at) }
{
    line.text(word);
    push_at(line, heads, at);
}
