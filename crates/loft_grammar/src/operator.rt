//! Reading operators between two operands.

ghost use Rattle.loft_form.specs.Form.{◌∣◌};
ghost use Rattle.loft_grammar.specs.Expressions.{operator, multiplying, adding, equality, ordering};
ghost use Rattle.loft_grammar.specs.Levels.{operator_at};
ghost use Rattle.loft_grammar.specs.Readers.{Takes};
ghost use Rattle.loft_grammar.specs.View.{reads_flat};

use crate::limited::Limited;
use crate::lookahead::{next_equality, next_is_sign};
use crate::reader::Reader;
use crate::token::sign;
use loft_lex::Sign;
use loft_tree::BinaryOperator;

/// The levels of operators that group to the left, from the one that binds most
/// (docs/LANGUAGE.md, "Grammar").
#[derive(Clone, Copy)]
pub enum Level {
    /// `*`, `/` and `%`: a `term`.
    Product,
    /// `+` and `-`: a `sum`.
    Sum,
    /// `&&`: a `conjunction`.
    Conjunction,
    /// `||`: an `expression`.
    Disjunction,
}

fn operator<'a, L: Limited>(
    wanted: Sign,
    meaning: BinaryOperator,
    at: &mut Reader<'a>,
) -> BinaryOperator
    ensures { Takes at.old at.new result (reads_flat L.limits (operator wanted meaning) at.old.cursor) }
{
    sign::<L>(wanted, at);
    meaning
}

fn multiplying<'a, L: Limited>(at: &mut Reader<'a>) -> BinaryOperator
    ensures { Takes at.old at.new result (reads_flat L.limits multiplying at.old.cursor) }
{
    if next_is_sign(Sign::Star, &at.cursor) {
        operator::<L>(Sign::Star, BinaryOperator::Times, at)
    } else if next_is_sign(Sign::Slash, &at.cursor) {
        operator::<L>(Sign::Slash, BinaryOperator::Divide, at)
    } else {
        operator::<L>(Sign::Percent, BinaryOperator::Remainder, at)
    }
}

fn adding<'a, L: Limited>(at: &mut Reader<'a>) -> BinaryOperator
    ensures { Takes at.old at.new result (reads_flat L.limits adding at.old.cursor) }
{
    if next_is_sign(Sign::Plus, &at.cursor) {
        operator::<L>(Sign::Plus, BinaryOperator::Plus, at)
    } else {
        operator::<L>(Sign::Minus, BinaryOperator::Minus, at)
    }
}

#[tactic(auto, unfolding(crate::specs::Expressions::equality))]
fn equality<'a, L: Limited>(at: &mut Reader<'a>) -> BinaryOperator
    ensures { Takes at.old at.new result (reads_flat L.limits equality at.old.cursor) }
{
    if next_is_sign(Sign::Same, &at.cursor) {
        operator::<L>(Sign::Same, BinaryOperator::Equal, at)
    } else {
        operator::<L>(Sign::Differs, BinaryOperator::Unequal, at)
    }
}

#[tactic(auto, unfolding(crate::specs::Expressions::ordering))]
fn ordering<'a, L: Limited>(at: &mut Reader<'a>) -> BinaryOperator
    ensures { Takes at.old at.new result (reads_flat L.limits ordering at.old.cursor) }
{
    if next_is_sign(Sign::Less, &at.cursor) {
        operator::<L>(Sign::Less, BinaryOperator::Less, at)
    } else if next_is_sign(Sign::LessOrSame, &at.cursor) {
        operator::<L>(Sign::LessOrSame, BinaryOperator::LessOrEqual, at)
    } else if next_is_sign(Sign::Greater, &at.cursor) {
        operator::<L>(Sign::Greater, BinaryOperator::Greater, at)
    } else {
        operator::<L>(Sign::GreaterOrSame, BinaryOperator::GreaterOrEqual, at)
    }
}

/// Reads an operator that compares.
#[tactic(auto, unfolding(crate::specs::Expressions::equality, crate::specs::Expressions::ordering))]
pub fn comparing<'a, L: Limited>(at: &mut Reader<'a>) -> BinaryOperator
    ensures { Takes at.old at.new result (reads_flat L.limits (equality ∣ ordering) at.old.cursor) }
{
    if next_equality(&at.cursor) {
        equality::<L>(at)
    } else {
        ordering::<L>(at)
    }
}

/// Reads an operator of the level.
pub fn operator_at<'a, L: Limited>(level: Level, at: &mut Reader<'a>) -> BinaryOperator
    ensures { Takes at.old at.new result (reads_flat L.limits (operator_at level) at.old.cursor) }
{
    match level {
        Level::Product => multiplying::<L>(at),
        Level::Sum => adding::<L>(at),
        Level::Conjunction => operator::<L>(Sign::And, BinaryOperator::And, at),
        Level::Disjunction => operator::<L>(Sign::Or, BinaryOperator::Or, at),
    }
}
