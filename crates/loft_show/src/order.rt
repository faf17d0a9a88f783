//! What outside clients order, and the threads that starts make.

ghost use Rattle.std.specs.Prelude.{◌≡◌, ◌++◌, ◌∷◌, [], map, true};
ghost use Rattle.loft_lex.specs.declared.sign.Sign.TheVariants as s;
ghost use Rattle.loft_tree.specs.View.{argument_of, order_of};
ghost use Rattle.loft_show.specs.Canon.{argument_pieces, led_by, call_pieces, lines_text, order_line, order_lines, pieces_text, sign, signed_pieces, tight};

use crate::line::{begin_line, end_statement};
use crate::list::{Listed, put_call};
use crate::pieces::{put_name, put_number, put_sign, put_word};
use crate::simple::control_word;
use loft_base::Out;
use loft_lex::{Sign, Word};
use loft_tree::{Argument, Ident, OutsideOrder};

impl Listed for Argument {
    ghost pieces = { λ a. argument_pieces (argument_of a) };

    #[tactic(auto, using(crate::proofs::Items::items))]
    fn put(&self, out: &mut Out, gap: &[u8]) {
        match self {
            Argument::Number { value, .. } => put_number(out, gap, *value),
            Argument::Name(name) => put_name(out, gap, name),
        }
    }
}

/// Appends a blank, and a thread to be made with arguments that are told outside modules.
#[tactic(auto, using(crate::proofs::Items::items))]
pub fn put_outer_call(out: &mut Out, scheduler: &Ident, called: &Ident, arguments: &[Argument])
    ensures before { out.new.is_whole ≡ true → out.old.is_whole ≡ true }
    ensures text { out.new.is_whole ≡ true → out.new.text.items ≡ out.old.text.items ++ pieces_text
        (call_pieces scheduler.now called.now (map argument_of arguments.now)) }
{
    put_call(out, scheduler, called, arguments)
}

/// Appends a comma, a blank and the number, where there is one.
#[tactic(auto, using(crate::proofs::Items::items))]
fn put_number_part(out: &mut Out, value: Option<i64>)
    ensures before { out.new.is_whole ≡ true → out.old.is_whole ≡ true }
    ensures text { out.new.is_whole ≡ true → out.new.text.items ≡ out.old.text.items ++ pieces_text
        (led_by signed_pieces (tight (sign s.Comma) ∷ []) value) }
{
    let Some(value) = value else {
        return;
    };
    put_sign(out, b"", Sign::Comma);
    put_number(out, b" ", value)
}

/// Appends an order, a line by itself.
#[tactic(auto, using(crate::proofs::Items::items))]
pub fn put_order(out: &mut Out, order: &OutsideOrder)
    ensures before { out.new.is_whole ≡ true → out.old.is_whole ≡ true }
    ensures text { out.new.is_whole ≡ true → out.new.text.items ≡ out.old.text.items ++ lines_text
        (order_line (order_of order.now) ∷ []) }
{
    match order {
        OutsideOrder::Create {
            scheduler,
            called,
            arguments,
        } => {
            begin_line(out, 2, Word::Create);
            put_outer_call(out, scheduler, called, arguments.as_slice());
        }
        OutsideOrder::Control {
            control,
            thread,
            scheduler,
        } => {
            begin_line(out, 2, control_word(*control));
            put_name(out, b" ", thread);
            put_word(out, b" ", Word::In);
            put_name(out, b" ", scheduler);
        }
        OutsideOrder::Broadcast { event, value } => {
            begin_line(out, 2, Word::Broadcast);
            put_name(out, b" ", &event.name);
            put_number_part(out, *value);
        }
    }
    end_statement(out)
}

/// Orders, each a line by itself.
pub fn put_orders(out: &mut Out, orders: &[OutsideOrder])
    ensures before { out.new.is_whole ≡ true → out.old.is_whole ≡ true }
    ensures text { out.new.is_whole ≡ true → out.new.text.items ≡ out.old.text.items ++ lines_text
        (order_lines (map order_of orders.now)) }
{
    for order in orders {
        put_order(out, order);
    }
}
