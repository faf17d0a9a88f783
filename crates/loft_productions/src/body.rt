//! Reading the bodies of modules, and the statements that hold others.

ghost use Rattle.std.specs.Option.{option_map};
ghost use Rattle.loft_tree.specs.View.{expression_of, statement_of};
ghost use Rattle.loft_form.specs.Form.{maybe};
ghost use Rattle.loft_productions.specs.Ends.{looped, looped_of};
ghost use Rattle.loft_grammar.specs.Statements.{condition, conditional, moving_statement, statement, body, otherwise, branches};
ghost use Rattle.loft_grammar.specs.Readers.{Takes};
ghost use Rattle.loft_grammar.specs.View.{reads, statement_list_of, branches_of};

use crate::event_statement::event_statement;
use crate::expression::{no_expression, whole};
use crate::thread_statement::{link, thread_statement, unlink};
use crate::value_statement::value_statement;
use loft_grammar::lookahead::{
    next_event_statement, next_is_word, next_statement, next_thread_statement, next_value_statement,
};
use loft_grammar::token::{opening_word, sign, word};
use loft_grammar::{Limited, Reader};
use loft_lex::{Sign, Word};
use loft_tree::{Expr, Stmt};

/// The condition of an `if` or a loop, with its brackets.
#[tactic(auto, unfolding(loft_grammar::specs::Statements::condition))]
fn condition<'a, L: Limited>(deeper: u32, at: &mut Reader<'a>) -> Expr
    ensures { Takes at.old at.new (expression_of result) (reads L.limits deeper condition at.old.cursor) }
{
    sign::<L>(Sign::Open, at);
    let e = whole::<L>(deeper, at);
    sign::<L>(Sign::Close, at);
    e
}

#[cycle(statement)]
#[tactic(auto, unfolding(loft_grammar::specs::Statements::conditional), using(loft_tree::proofs::Trees::statement_if, crate::proofs::Inside::inside_is))]
fn conditional<'a, L: Limited>(deeper: u32, at: &mut Reader<'a>) -> Stmt
    ensures { Takes at.old at.new (statement_of result) (reads L.limits deeper conditional at.old.cursor) }
{
    let place = opening_word::<L>(deeper, Word::If, at);
    if !at.goes_on() {
        return Stmt::Halt { at: place };
    }
    let (test, first, second) = branches::<L>(deeper - 1, at);
    word::<L>(Word::End, at);
    let second = match second {
        Some(second) => second,
        None => Vec::new(at.alloc),
    };
    Stmt::If {
        at: place,
        test,
        first,
        second,
    }
}

/// Reads a statement that begins with this word and repeats a body: its place, its expression and its body.
#[cycle(statement)]
#[tactic(auto, unfolding(loft_grammar::specs::Statements::turns), using(crate::proofs::Inside::inside_is))]
fn looped<'a, L: Limited>(deeper: u32, wanted: Word, at: &mut Reader<'a>) -> (u32, Expr, Vec<Stmt>)
    ensures { Takes at.old at.new (looped_of result) (reads L.limits deeper (looped wanted) at.old.cursor) }
{
    let place = opening_word::<L>(deeper, wanted, at);
    if !at.goes_on() {
        return (place, no_expression(), Vec::new(at.alloc));
    }
    let e = condition::<L>(deeper - 1, at);
    word::<L>(Word::Do, at);
    let body = body::<L>(deeper - 1, at);
    word::<L>(Word::End, at);
    (place, e, body)
}

#[cycle(statement)]
#[tactic(auto, unfolding(loft_grammar::specs::Statements::moving_statement, loft_grammar::specs::Statements::link, loft_grammar::specs::Statements::unlink, loft_grammar::specs::Statements::conditional, loft_grammar::specs::Statements::while_loop, loft_grammar::specs::Statements::repeat), using(loft_tree::proofs::Trees::statement_while, loft_tree::proofs::Trees::statement_repeat))]
fn moving_statement<'a, L: Limited>(deeper: u32, at: &mut Reader<'a>) -> Stmt
    ensures { Takes at.old at.new (statement_of result) (reads L.limits deeper moving_statement at.old.cursor) }
{
    if next_is_word(Word::Link, &at.cursor) {
        link::<L>(at)
    } else if next_is_word(Word::Unlink, &at.cursor) {
        unlink::<L>(at)
    } else if next_is_word(Word::If, &at.cursor) {
        conditional::<L>(deeper, at)
    } else if next_is_word(Word::While, &at.cursor) {
        let (place, test, body) = looped::<L>(deeper, Word::While, at);
        Stmt::While {
            at: place,
            test,
            body,
        }
    } else {
        let (place, count, body) = looped::<L>(deeper, Word::Repeat, at);
        Stmt::Repeat {
            at: place,
            count,
            body,
        }
    }
}

/// Reads a statement.
#[cycle(statement)]
#[tactic(auto, unfolding(loft_grammar::specs::Statements::statement))]
pub fn statement<'a, L: Limited>(deeper: u32, at: &mut Reader<'a>) -> Stmt
    ensures { Takes at.old at.new (statement_of result) (reads L.limits deeper statement at.old.cursor) }
{
    if next_value_statement(&at.cursor) {
        value_statement::<L>(deeper, at)
    } else if next_event_statement(&at.cursor) {
        event_statement::<L>(deeper, at)
    } else if next_thread_statement(&at.cursor) {
        thread_statement::<L>(deeper, at)
    } else {
        moving_statement::<L>(deeper, at)
    }
}

/// Reads the statements of a body.
#[cycle(statement)]
#[tactic(auto, unfolding(loft_grammar::specs::Statements::body))]
pub fn body<'a, L: Limited>(deeper: u32, at: &mut Reader<'a>) -> Vec<Stmt>
    ensures { Takes at.old at.new (statement_list_of result) (reads L.limits deeper body at.old.cursor) }
{
    let mut statements = at.or(Vec::with_capacity(at.alloc, 1), Vec::new(at.alloc));
    'all: while at.goes_on() && next_statement(&at.cursor) {
        let one = statement::<L>(deeper, at);
        at.push(&mut statements, one);
    }
    statements
}

#[cycle(statement)]
#[tactic(auto, unfolding(loft_grammar::specs::Statements::otherwise))]
fn otherwise<'a, L: Limited>(deeper: u32, at: &mut Reader<'a>) -> Option<Vec<Stmt>>
    ensures { Takes at.old at.new (option_map statement_list_of result) (reads L.limits deeper (maybe otherwise) at.old.cursor) }
{
    if next_is_word(Word::Else, &at.cursor) {
        word::<L>(Word::Else, at);
        let second = body::<L>(deeper, at);
        Some(second)
    } else {
        None
    }
}

#[cycle(statement)]
#[tactic(auto, unfolding(loft_grammar::specs::Statements::branches))]
fn branches<'a, L: Limited>(
    deeper: u32,
    at: &mut Reader<'a>,
) -> (Expr, Vec<Stmt>, Option<Vec<Stmt>>)
    ensures { Takes at.old at.new (branches_of result) (reads L.limits deeper branches at.old.cursor) }
{
    let test = condition::<L>(deeper, at);
    word::<L>(Word::Then, at);
    let first = body::<L>(deeper, at);
    let second = otherwise::<L>(deeper, at);
    (test, first, second)
}
