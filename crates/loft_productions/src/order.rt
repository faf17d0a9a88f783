//! Reading the orders of outside clients.

ghost use Rattle.loft_tree.specs.View.{order_of};
ghost use Rattle.std.specs.Prelude.{◌≡◌};
ghost use Rattle.loft_form.specs.Form.{maybe, many, fresh, next_begins};
ghost use Rattle.loft_grammar.specs.Limits.{limits};
ghost use Rattle.loft_productions.specs.Ends.{create_end, create_end_of};
ghost use Rattle.loft_grammar.specs.Items.{create_order, control_order, value_after_comma, broadcast_order, order};
ghost use Rattle.loft_grammar.specs.Readers.{Takes};
ghost use Rattle.loft_grammar.specs.View.{symbols_at, reads_flat, orders_of};

use crate::constant_argument::{outer_arguments, signed};
use crate::event_statement::event_name;
use crate::optional::name_end;
use crate::thread_statement::control_word;
use loft_grammar::lookahead::{next_control, next_is_sign, next_is_word, next_order};
use loft_grammar::token::{first_word, name, sign};
use loft_grammar::{Counted, Cursor, Reader, SourceLimits};
use loft_lex::{Sign, Word};
use loft_tree::{Argument, Ident, OutsideOrder};

/// Reads what stands after the scheduler of an order that creates a thread.
fn create_end<'a>(at: &mut Reader<'a>) -> (Ident, Vec<Argument>)
    ensures { Takes at.old at.new (create_end_of result) (reads_flat limits create_end at.old.cursor) }
{
    sign::<SourceLimits>(Sign::Dot, at);
    let called = name::<SourceLimits>(None, at);
    let arguments = outer_arguments(at);
    sign::<SourceLimits>(Sign::Semicolon, at);
    (called, arguments)
}

#[tactic(auto, unfolding(loft_grammar::specs::Items::create_order))]
fn create_order<'a>(at: &mut Reader<'a>) -> OutsideOrder
    ensures { Takes at.old at.new (order_of result) (reads_flat limits create_order at.old.cursor) }
{
    first_word::<SourceLimits>(Counted::Order, Word::Create, at);
    let scheduler = name::<SourceLimits>(None, at);
    let (called, arguments) = create_end(at);
    OutsideOrder::Create {
        scheduler,
        called,
        arguments,
    }
}

#[tactic(auto, unfolding(loft_grammar::specs::Items::control_order))]
fn control_order<'a>(at: &mut Reader<'a>) -> OutsideOrder
    ensures { Takes at.old at.new (order_of result) (reads_flat limits control_order at.old.cursor) }
{
    let (_, control) = control_word::<SourceLimits>(Counted::Order, at);
    let thread = name::<SourceLimits>(None, at);
    let scheduler = name_end::<SourceLimits>(Word::In, at);
    OutsideOrder::Control {
        control,
        thread,
        scheduler,
    }
}

/// Reads a comma and a number, if a comma stands here.
#[tactic(auto, unfolding(loft_grammar::specs::Items::value_after_comma))]
fn optional_value<'a>(at: &mut Reader<'a>) -> Option<i64>
    ensures { Takes at.old at.new result (reads_flat limits (maybe value_after_comma) at.old.cursor) }
{
    if next_is_sign(Sign::Comma, &at.cursor) {
        sign::<SourceLimits>(Sign::Comma, at);
        let (_, value) = signed(at);
        Some(value)
    } else {
        None
    }
}

#[tactic(auto, unfolding(loft_grammar::specs::Items::broadcast_order))]
fn broadcast_order<'a>(at: &mut Reader<'a>) -> OutsideOrder
    ensures { Takes at.old at.new (order_of result) (reads_flat limits broadcast_order at.old.cursor) }
{
    first_word::<SourceLimits>(Counted::Order, Word::Broadcast, at);
    let event = event_name::<SourceLimits>(None, at);
    let value = optional_value(at);
    sign::<SourceLimits>(Sign::Semicolon, at);
    OutsideOrder::Broadcast { event, value }
}

/// Whether the next symbol begins an order that creates a thread.
#[tactic(auto, unfolding(loft_grammar::specs::Items::create_order))]
fn next_create<'a>(at: &Cursor<'a>) -> bool
    ensures { result ≡ next_begins create_order (symbols_at at.now) }
{
    next_is_word(Word::Create, at)
}

/// Whether the next symbol begins an order that controls a thread.
#[tactic(auto, unfolding(loft_grammar::specs::Items::control_order))]
fn next_control_order<'a>(at: &Cursor<'a>) -> bool
    ensures { result ≡ next_begins control_order (symbols_at at.now) }
{
    next_control(at)
}

/// Reads an order.
#[tactic(auto, unfolding(loft_grammar::specs::Items::order))]
pub fn order<'a>(at: &mut Reader<'a>) -> OutsideOrder
    ensures { Takes at.old at.new (order_of result) (reads_flat limits order at.old.cursor) }
{
    if next_create(&at.cursor) {
        create_order(at)
    } else if next_control_order(&at.cursor) {
        control_order(at)
    } else {
        broadcast_order(at)
    }
}

/// Reads the orders of a client.
pub fn orders<'a>(at: &mut Reader<'a>) -> Vec<OutsideOrder>
    ensures { Takes at.old at.new (orders_of result) (reads_flat limits (fresh Counted.Order (many order)) at.old.cursor) }
{
    let mut orders = Vec::new(at.alloc);
    at.count_anew(Counted::Order);
    'all: while at.goes_on() && next_order(&at.cursor) {
        let one = order(at);
        at.push(&mut orders, one);
    }
    orders
}
