//! Reading what statements have in common.

ghost use Rattle.loft_tree.specs.View.{value_of};
ghost use Rattle.loft_form.specs.Form.{maybe};
ghost use Rattle.loft_productions.specs.Ends.{name_end, value_end, limit_end, name_end_of, value_end_of};
ghost use Rattle.loft_grammar.specs.Expressions.{whole};
ghost use Rattle.loft_grammar.specs.Statements.{after_comma, time_limit};
ghost use Rattle.loft_grammar.specs.Readers.{Takes};
ghost use Rattle.loft_grammar.specs.View.{reads, reads_flat};

use crate::expression::whole;
use loft_grammar::lookahead::{next_expression, next_is_sign, next_is_word};
use loft_grammar::token::{name, sign, word};
use loft_grammar::{Limited, Reader};
use loft_lex::{Sign, Word};
use loft_tree::{Expr, Ident};

/// Reads an expression, if one begins here.
pub fn optional_whole<'a, L: Limited>(deeper: u32, at: &mut Reader<'a>) -> Option<Expr>
    ensures { Takes at.old at.new (value_of result) (reads L.limits deeper (maybe whole) at.old.cursor) }
{
    if next_expression(&at.cursor) {
        let value = whole::<L>(deeper, at);
        Some(value)
    } else {
        None
    }
}

/// Reads a comma and an expression, if a comma stands here.
#[tactic(auto, unfolding(loft_grammar::specs::Statements::after_comma))]
pub fn optional_value<'a, L: Limited>(deeper: u32, at: &mut Reader<'a>) -> Option<Expr>
    ensures { Takes at.old at.new (value_of result) (reads L.limits deeper (maybe after_comma) at.old.cursor) }
{
    if next_is_sign(Sign::Comma, &at.cursor) {
        sign::<L>(Sign::Comma, at);
        let value = whole::<L>(deeper, at);
        Some(value)
    } else {
        None
    }
}

/// Reads `for` and an expression, if `for` stands here.
#[tactic(auto, unfolding(loft_grammar::specs::Statements::time_limit))]
fn optional_limit<'a, L: Limited>(deeper: u32, at: &mut Reader<'a>) -> Option<Expr>
    ensures { Takes at.old at.new (value_of result) (reads L.limits deeper (maybe time_limit) at.old.cursor) }
{
    if next_is_word(Word::For, &at.cursor) {
        word::<L>(Word::For, at);
        let limit = whole::<L>(deeper, at);
        Some(limit)
    } else {
        None
    }
}

/// Reads a comma and an expression, if a comma stands here, and the end of the statement.
#[tactic(auto, unfolding(loft_grammar::specs::Statements::after_comma))]
pub fn value_end<'a, L: Limited>(deeper: u32, at: &mut Reader<'a>) -> Option<Expr>
    ensures { Takes at.old at.new (value_end_of result) (reads L.limits deeper value_end at.old.cursor) }
{
    let value = optional_value::<L>(deeper, at);
    sign::<L>(Sign::Semicolon, at);
    value
}

/// Reads `for` and an expression, if `for` stands here, and the end of the statement.
#[tactic(auto, unfolding(loft_grammar::specs::Statements::time_limit))]
pub fn limit_end<'a, L: Limited>(deeper: u32, at: &mut Reader<'a>) -> Option<Expr>
    ensures { Takes at.old at.new (value_end_of result) (reads L.limits deeper limit_end at.old.cursor) }
{
    let limit = optional_limit::<L>(deeper, at);
    sign::<L>(Sign::Semicolon, at);
    limit
}

/// Reads the word, a name, and the end of the statement.
pub fn name_end<'a, L: Limited>(wanted: Word, at: &mut Reader<'a>) -> Ident
    ensures { Takes at.old at.new (name_end_of result) (reads_flat L.limits (name_end wanted) at.old.cursor) }
{
    word::<L>(wanted, at);
    let name = name::<L>(None, at);
    sign::<L>(Sign::Semicolon, at);
    name
}
