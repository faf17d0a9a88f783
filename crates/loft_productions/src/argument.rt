//! Reading the arguments of calls.

ghost use Rattle.std.specs.Prelude.{◌≡◌, None};
ghost use Rattle.loft_tree.specs.View.{expression_of, creation_of};
ghost use Rattle.loft_form.specs.Form.{many};
ghost use Rattle.loft_grammar.specs.Expressions.{further, listed, argument, arguments};
ghost use Rattle.loft_grammar.specs.Statements.{creation};
ghost use Rattle.loft_grammar.specs.Readers.{Takes};
ghost use Rattle.loft_grammar.specs.View.{reads, with_front, expressions_of};

use crate::expression::whole;
use loft_grammar::lookahead::{next_expression, next_is_sign};
use loft_grammar::token::{name, sign};
use loft_grammar::{Counted, Limited, Reader};
use loft_lex::Sign;
use loft_tree::{Creation, Expr};

#[tactic(auto, unfolding(loft_grammar::specs::Expressions::argument))]
fn argument<'a, L: Limited>(deeper: u32, at: &mut Reader<'a>) -> Expr
    requires { at.old.stopped ≡ None → at.old.cursor.due ≡ None }
    ensures { Takes at.old at.new (expression_of result) (reads L.limits deeper argument at.old.cursor) }
{
    at.owe(Counted::Argument);
    whole::<L>(deeper, at)
}

fn further_argument<'a, L: Limited>(deeper: u32, at: &mut Reader<'a>) -> Expr
    ensures { Takes at.old at.new (expression_of result) (reads L.limits deeper (further argument) at.old.cursor) }
{
    sign::<L>(Sign::Comma, at);
    argument::<L>(deeper, at)
}

/// Reads further arguments after these.
fn further_arguments<'a, L: Limited>(
    deeper: u32,
    arguments: Vec<Expr>,
    at: &mut Reader<'a>,
) -> Vec<Expr>
    ensures { Takes at.old at.new (expressions_of result) (with_front (expressions_of arguments) (reads L.limits deeper (many (further argument)) at.old.cursor)) }
{
    let mut arguments = arguments;
    'all: while at.goes_on() && next_is_sign(Sign::Comma, &at.cursor) {
        let one = further_argument::<L>(deeper, at);
        at.push(&mut arguments, one);
    }
    arguments
}

#[tactic(auto, unfolding(loft_grammar::specs::Expressions::argument))]
fn listed<'a, L: Limited>(deeper: u32, at: &mut Reader<'a>) -> Vec<Expr>
    requires { at.old.stopped ≡ None → at.old.cursor.due ≡ None }
    ensures { Takes at.old at.new (expressions_of result) (reads L.limits deeper (listed argument) at.old.cursor) }
{
    let mut arguments = Vec::new(at.alloc);
    if next_expression(&at.cursor) {
        let first = argument::<L>(deeper, at);
        at.push(&mut arguments, first);
        further_arguments::<L>(deeper, arguments, at)
    } else {
        arguments
    }
}

/// Reads the arguments of a call, with their brackets.
#[tactic(auto, unfolding(loft_grammar::specs::Expressions::arguments))]
pub fn arguments<'a, L: Limited>(deeper: u32, at: &mut Reader<'a>) -> Vec<Expr>
    ensures { Takes at.old at.new (expressions_of result) (reads L.limits deeper arguments at.old.cursor) }
{
    sign::<L>(Sign::Open, at);
    at.count_anew(Counted::Argument);
    let arguments = listed::<L>(deeper, at);
    sign::<L>(Sign::Close, at);
    arguments
}

/// Reads what is said of a thread that is to be made.
#[tactic(auto, unfolding(loft_grammar::specs::Statements::creation))]
pub fn creation<'a, L: Limited>(deeper: u32, at: &mut Reader<'a>) -> Creation
    ensures { Takes at.old at.new (creation_of result) (reads L.limits deeper creation at.old.cursor) }
{
    let scheduler = name::<L>(None, at);
    sign::<L>(Sign::Dot, at);
    let called = name::<L>(None, at);
    let arguments = arguments::<L>(deeper, at);
    Creation {
        scheduler,
        called,
        arguments,
    }
}
