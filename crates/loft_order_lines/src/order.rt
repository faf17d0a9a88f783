//! Orders.

ghost use Rattle.std.specs.Prelude.{◌≡◌, List, true, Some, IfSome};
ghost use Rattle.loft_base.specs.declared.ids.Value.{Value as PlainValue};
ghost use Rattle.loft_tree.specs.Fits.{Each};
ghost use Rattle.loft_orders.specs.declared.order.Order.{Order};
ghost use Rattle.loft_orders.specs.Text.{order_text, separated, value_text};
ghost use Rattle.loft_report_shape.specs.declared.word.Word.TheVariants as word;
ghost use Rattle.loft_tree.specs.declared.heads.Heads.{Heads};
ghost use Rattle.loft_order_lines.specs.Texts.{OwnNames, IdHasText, ValueHasText, OrderHasText};
ghost use Rattle.loft_order_lines.specs.Words.{word_of_order, rest_of_order, thread_in};

use crate::cut::cut_at;
use crate::ends::end_of;
use crate::list::read_list;
use crate::names::{event_named, module_named};
use crate::number::integer_of;
use crate::thread::thread_of;
use crate::value::id_of;
use loft_base::{Room, ThreadId, Value};
use loft_orders::{Order, SharedThread, SharedValues};
use loft_report_sets::word_of;
use loft_report_shape::Word;
use loft_tree::Heads;

/// The arguments whose texts these bytes are, with a comma between each two, if there are such values.
fn arguments_of(room: &mut Room, heads: &Heads, bytes: &[u8]) -> Option<SharedValues>
    requires { OwnNames heads.now }
    ensures before { room.new.is_whole ≡ true → room.old.is_whole ≡ true }
    ensures text { room.new.is_whole ≡ true → IfSome result (Each (ValueHasText heads.now)) }
    ensures read { room.new.is_whole ≡ true → (args : List PlainValue) → Each (ValueHasText heads.now) args
        → bytes.now ≡ separated (value_text heads.now) args → result ≡ Some args }
{
    let values = read_list::<Value>(room, heads, bytes, b',')?;
    match SharedValues::from_slice(room.alloc, values.as_slice()) {
        Ok(args) => Some(args),
        Err(_) => {
            room.is_whole = false;
            None
        }
    }
}

/// The create that has this text after its word, if one has.
fn create_of(room: &mut Room, heads: &Heads, bytes: &[u8]) -> Option<Order>
    requires { OwnNames heads.now }
    ensures before { room.new.is_whole ≡ true → room.old.is_whole ≡ true }
    ensures text { room.new.is_whole ≡ true → IfSome result (OrderHasText heads.now) }
    ensures read { room.new.is_whole ≡ true → (o : Order) → OrderHasText heads.now o
        → word_of_order o ≡ word.Create → bytes.now ≡ rest_of_order heads.now o → result ≡ Some o }
{
    let (thread, rest) = cut_at(bytes, b' ');
    let (module, rest) = cut_at(rest, b'(');
    let (args, _) = cut_at(rest, b')');
    let thread = id_of(heads, thread)?;
    let module = module_named(heads, module)?;
    let args = arguments_of(room, heads, args)?;
    Some(Order::Create {
        thread,
        module,
        args,
    })
}

/// The arrival that has this text after its word, if one has.
fn arrival_of(room: &mut Room, heads: &Heads, bytes: &[u8]) -> Option<Order>
    requires { OwnNames heads.now }
    ensures before { room.new.is_whole ≡ true → room.old.is_whole ≡ true }
    ensures text { room.new.is_whole ≡ true → IfSome result (OrderHasText heads.now) }
    ensures read { room.new.is_whole ≡ true → (o : Order) → OrderHasText heads.now o
        → word_of_order o ≡ word.Arrive → bytes.now ≡ rest_of_order heads.now o → result ≡ Some o }
{
    let thread = thread_of(room, heads, bytes)?;
    match SharedThread::new(room.alloc, thread) {
        Ok(thread) => Some(Order::Arrive(thread)),
        Err(_) => {
            room.is_whole = false;
            None
        }
    }
}

/// The broadcast that has this text after its word, if one has.
fn broadcast_of(heads: &Heads, bytes: &[u8]) -> Option<Order>
    requires { OwnNames heads.now }
    ensures text { IfSome result (OrderHasText heads.now) }
    ensures read { (o : Order) → OrderHasText heads.now o → word_of_order o ≡ word.Broadcast
        → bytes.now ≡ rest_of_order heads.now o → result ≡ Some o }
{
    let (event, value) = cut_at(bytes, b' ');
    let event = event_named(heads, event)?;
    if value.is_empty() {
        return Some(Order::Broadcast { event, value: None });
    }
    let value = integer_of(value)?;
    Some(Order::Broadcast {
        event,
        value: Some(value),
    })
}

/// The order that tells of an end, and has this text after its word, if one has.
fn ended_of(heads: &Heads, bytes: &[u8]) -> Option<Order>
    requires { OwnNames heads.now }
    ensures text { IfSome result (OrderHasText heads.now) }
    ensures read { (o : Order) → OrderHasText heads.now o → word_of_order o ≡ word.Ended
        → bytes.now ≡ rest_of_order heads.now o → result ≡ Some o }
{
    let (thread, end) = cut_at(bytes, b' ');
    let thread = id_of(heads, thread)?;
    let end = end_of(heads, end)?;
    Some(Order::Ended { thread, end })
}

/// The order of this word about this thread, if it is one about a thread alone.
fn control_of(word: Word, thread: ThreadId) -> Option<Order>
    ensures text { (h : Heads) → IdHasText h thread → IfSome result (OrderHasText h) }
    ensures read { (o : Order) → word_of_order o ≡ word → thread_in o ≡ Some thread
        → result ≡ Some o }
{
    match word {
        Word::Stop => Some(Order::Stop(thread)),
        Word::Suspend => Some(Order::Suspend(thread)),
        Word::Resume => Some(Order::Resume(thread)),
        _ => None,
    }
}

/// The order that has this text, if one has.
pub fn order_of(room: &mut Room, heads: &Heads, bytes: &[u8]) -> Option<Order>
    requires { OwnNames heads.now }
    ensures before { room.new.is_whole ≡ true → room.old.is_whole ≡ true }
    ensures text { room.new.is_whole ≡ true → IfSome result (OrderHasText heads.now) }
    ensures read { room.new.is_whole ≡ true → (o : Order) → OrderHasText heads.now o
        → bytes.now ≡ order_text heads.now o → result ≡ Some o }
{
    let (word, rest) = cut_at(bytes, b' ');
    let word = word_of(word)?;
    match word {
        Word::Create => create_of(room, heads, rest),
        Word::Arrive => arrival_of(room, heads, rest),
        Word::Broadcast => broadcast_of(heads, rest),
        Word::Ended => ended_of(heads, rest),
        _ => {
            let thread = id_of(heads, rest)?;
            control_of(word, thread)
        }
    }
}
