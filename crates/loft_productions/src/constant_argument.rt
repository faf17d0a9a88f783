//! Reading what stands outside bodies: numbers with a sign, and the arguments of starts and orders.

ghost use Rattle.std.specs.Prelude.{◌≡◌, None};
ghost use Rattle.loft_tree.specs.View.{argument_of};
ghost use Rattle.loft_form.specs.Form.{many};
ghost use Rattle.loft_grammar.specs.Limits.{limits};
ghost use Rattle.loft_grammar.specs.Expressions.{further, listed};
ghost use Rattle.loft_grammar.specs.Items.{negative, signed, outer_argument, outer_arguments};
ghost use Rattle.loft_grammar.specs.Readers.{Takes};
ghost use Rattle.loft_grammar.specs.View.{reads_flat, with_front, arguments_of};

use loft_base::sub;
use loft_grammar::lookahead::{next_is_number, next_is_sign, next_outer_argument, next_signed};
use loft_grammar::token::{name, numeral, sign, sign_place};
use loft_grammar::{Counted, Reader, SourceLimits};
use loft_lex::Sign;
use loft_tree::Argument;

#[tactic(auto, unfolding(loft_grammar::specs::Items::negative))]
fn negative<'a>(at: &mut Reader<'a>) -> (u32, i64)
    ensures { Takes at.old at.new result (reads_flat limits negative at.old.cursor) }
{
    let place = sign_place::<SourceLimits>(Sign::Minus, at);
    let (_, value) = numeral::<SourceLimits>(None, at);
    (place, sub(0, value))
}

/// Reads a number, with a sign or without, and its place.
#[tactic(auto, unfolding(loft_grammar::specs::Items::signed))]
pub fn signed<'a>(at: &mut Reader<'a>) -> (u32, i64)
    ensures { Takes at.old at.new result (reads_flat limits signed at.old.cursor) }
{
    if next_is_number(&at.cursor) {
        numeral::<SourceLimits>(None, at)
    } else {
        negative(at)
    }
}

#[tactic(auto, unfolding(loft_grammar::specs::Items::outer_argument, loft_grammar::specs::Items::signed, loft_grammar::specs::Items::negative))]
fn outer_argument<'a>(at: &mut Reader<'a>) -> Argument
    requires { at.old.stopped ≡ None → at.old.cursor.due ≡ None }
    ensures { Takes at.old at.new (argument_of result) (reads_flat limits outer_argument at.old.cursor) }
{
    at.owe(Counted::Argument);
    if next_signed(&at.cursor) {
        let (place, value) = signed(at);
        Argument::Number { at: place, value }
    } else {
        let name = name::<SourceLimits>(None, at);
        Argument::Name(name)
    }
}

fn further_argument<'a>(at: &mut Reader<'a>) -> Argument
    ensures { Takes at.old at.new (argument_of result) (reads_flat limits (further outer_argument) at.old.cursor) }
{
    sign::<SourceLimits>(Sign::Comma, at);
    outer_argument(at)
}

/// Reads further arguments after these.
fn further_arguments<'a>(arguments: Vec<Argument>, at: &mut Reader<'a>) -> Vec<Argument>
    ensures { Takes at.old at.new (arguments_of result) (with_front (arguments_of arguments) (reads_flat limits (many (further outer_argument)) at.old.cursor)) }
{
    let mut arguments = arguments;
    'all: while at.goes_on() && next_is_sign(Sign::Comma, &at.cursor) {
        let one = further_argument(at);
        at.push(&mut arguments, one);
    }
    arguments
}

#[tactic(auto, unfolding(loft_grammar::specs::Items::outer_argument))]
fn listed<'a>(at: &mut Reader<'a>) -> Vec<Argument>
    requires { at.old.stopped ≡ None → at.old.cursor.due ≡ None }
    ensures { Takes at.old at.new (arguments_of result) (reads_flat limits (listed outer_argument) at.old.cursor) }
{
    let mut arguments = Vec::new(at.alloc);
    if next_outer_argument(&at.cursor) {
        let first = outer_argument(at);
        at.push(&mut arguments, first);
        further_arguments(arguments, at)
    } else {
        arguments
    }
}

/// Reads the arguments of a start or an order, with their brackets.
#[tactic(auto, unfolding(loft_grammar::specs::Items::outer_arguments))]
pub fn outer_arguments<'a>(at: &mut Reader<'a>) -> Vec<Argument>
    ensures { Takes at.old at.new (arguments_of result) (reads_flat limits outer_arguments at.old.cursor) }
{
    sign::<SourceLimits>(Sign::Open, at);
    at.count_anew(Counted::Argument);
    let arguments = listed(at);
    sign::<SourceLimits>(Sign::Close, at);
    arguments
}
