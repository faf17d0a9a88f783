//! Reading assignments, `print` and `create`.

ghost use Rattle.loft_tree.specs.View.{statement_of};
ghost use Rattle.loft_productions.specs.Ends.{assigned_end, created_end, text_end, assigned_end_of, created_end_of, text_end_of};
ghost use Rattle.loft_grammar.specs.Statements.{assignment, print, create, value_statement};
ghost use Rattle.loft_grammar.specs.Readers.{Takes};
ghost use Rattle.loft_grammar.specs.View.{reads};

use crate::argument::creation;
use crate::expression::whole;
use crate::optional::optional_value;
use loft_grammar::lookahead::{next_is_name, next_is_text, next_is_word};
use loft_grammar::token::{first_word, name, sign, text, word_place};
use loft_grammar::{Counted, Limited, Reader};
use loft_lex::{Sign, Word};
use loft_tree::{Creation, Expr, Stmt, Text};

/// Reads what is created after the sign of an assignment, and the end of the statement.
fn created_end<'a, L: Limited>(deeper: u32, at: &mut Reader<'a>) -> (u32, Creation)
    ensures { Takes at.old at.new (created_end_of result) (reads L.limits deeper created_end at.old.cursor) }
{
    let place = word_place::<L>(Word::Create, at);
    let creation = creation::<L>(deeper, at);
    sign::<L>(Sign::Semicolon, at);
    (place, creation)
}

/// Reads the value after the sign of an assignment, and the end of the statement.
fn assigned_end<'a, L: Limited>(deeper: u32, at: &mut Reader<'a>) -> Expr
    ensures { Takes at.old at.new (assigned_end_of result) (reads L.limits deeper assigned_end at.old.cursor) }
{
    let value = whole::<L>(deeper, at);
    sign::<L>(Sign::Semicolon, at);
    value
}

#[tactic(auto, unfolding(loft_grammar::specs::Statements::assignment, loft_grammar::specs::Statements::assigned), using(loft_tree::proofs::Trees::statement_assign, loft_tree::proofs::Trees::statement_assign_create))]
fn assignment<'a, L: Limited>(deeper: u32, at: &mut Reader<'a>) -> Stmt
    ensures { Takes at.old at.new (statement_of result) (reads L.limits deeper assignment at.old.cursor) }
{
    let target = name::<L>(Some(Counted::Statement), at);
    sign::<L>(Sign::Equals, at);
    if next_is_word(Word::Create, &at.cursor) {
        let (place, creation) = created_end::<L>(deeper, at);
        Stmt::AssignCreate {
            target,
            at: place,
            creation,
        }
    } else {
        let value = assigned_end::<L>(deeper, at);
        Stmt::Assign { target, value }
    }
}

/// Reads a text, a comma and an expression, if a comma stands there, and the end of the statement.
#[tactic(auto, unfolding(loft_grammar::specs::Statements::after_comma))]
fn text_end<'a, L: Limited>(deeper: u32, at: &mut Reader<'a>) -> (Text, Option<Expr>)
    ensures { Takes at.old at.new (text_end_of result) (reads L.limits deeper text_end at.old.cursor) }
{
    let text = text::<L>(at);
    let value = optional_value::<L>(deeper, at);
    sign::<L>(Sign::Semicolon, at);
    (text, value)
}

#[tactic(auto, unfolding(loft_grammar::specs::Statements::print, loft_grammar::specs::Statements::printed), using(loft_tree::proofs::Trees::statement_print_text, loft_tree::proofs::Trees::statement_print_value))]
fn print<'a, L: Limited>(deeper: u32, at: &mut Reader<'a>) -> Stmt
    ensures { Takes at.old at.new (statement_of result) (reads L.limits deeper print at.old.cursor) }
{
    let place = first_word::<L>(Counted::Statement, Word::Print, at);
    if next_is_text(&at.cursor) {
        let (text, value) = text_end::<L>(deeper, at);
        Stmt::PrintText {
            at: place,
            text,
            value,
        }
    } else {
        let value = whole::<L>(deeper, at);
        sign::<L>(Sign::Semicolon, at);
        Stmt::PrintValue { at: place, value }
    }
}

#[tactic(auto, unfolding(loft_grammar::specs::Statements::create), using(loft_tree::proofs::Trees::statement_create))]
fn create<'a, L: Limited>(deeper: u32, at: &mut Reader<'a>) -> Stmt
    ensures { Takes at.old at.new (statement_of result) (reads L.limits deeper create at.old.cursor) }
{
    let place = first_word::<L>(Counted::Statement, Word::Create, at);
    let creation = creation::<L>(deeper, at);
    sign::<L>(Sign::Semicolon, at);
    Stmt::Create {
        at: place,
        creation,
    }
}

/// Reads an assignment, a `print` or a `create`.
#[tactic(auto, unfolding(loft_grammar::specs::Statements::value_statement, loft_grammar::specs::Statements::assignment, loft_grammar::specs::Statements::print))]
pub fn value_statement<'a, L: Limited>(deeper: u32, at: &mut Reader<'a>) -> Stmt
    ensures { Takes at.old at.new (statement_of result) (reads L.limits deeper value_statement at.old.cursor) }
{
    if next_is_name(&at.cursor) {
        assignment::<L>(deeper, at)
    } else if next_is_word(Word::Print, &at.cursor) {
        print::<L>(deeper, at)
    } else {
        create::<L>(deeper, at)
    }
}
