//! Reading expressions.

ghost use Rattle.std.specs.Prelude.{◌≡◌, IfOk, None, Some};
ghost use Rattle.loft_form.specs.declared.fault.Fault.{Fault};
ghost use Rattle.loft_form.specs.declared.stop.Stop.TheVariants as stop;
ghost use Rattle.loft_tree.specs.Source.{Binary, Unary};
ghost use Rattle.loft_tree.specs.View.{expression_of};
ghost use Rattle.loft_productions.specs.Ends.{prefixed};
ghost use Rattle.loft_grammar.specs.Expressions.{special, builtin, bracketed, atom, unary, compared, comparison, whole};
ghost use Rattle.loft_grammar.specs.Levels.{operand_at, operation_at, chain_at};
ghost use Rattle.loft_grammar.specs.Readers.{Takes};
ghost use Rattle.loft_grammar.specs.View.{reads, reads_flat, operation_of};

use loft_grammar::lookahead::{
    next_builtin, next_compared, next_is_name, next_is_number, next_is_sign, next_is_word,
    next_operation, next_stands_alone,
};
use loft_grammar::operator::{Level, comparing, operator_at};
use loft_grammar::token::{first_word, name, numeral, opening_sign, sign};
use loft_grammar::{Counted, Limited, Reader};
use loft_lex::{Sign, Word};
use loft_tree::{BinaryOperator, Builtin, Expr, UnaryOperator};
use std::alloc::{AllocError, Global};

/// An operator between its operands.
#[inline(always)]
fn boxed_binary(
    alloc: Global,
    operator: BinaryOperator,
    left: Expr,
    right: Expr,
) -> Result<Expr, AllocError>
    ensures { IfOk result (λ e. expression_of e ≡ Binary operator (expression_of left) (expression_of right)) }
{
    Ok(Expr::Binary {
        operator,
        left: Box::new(alloc, left)?,
        right: Box::new(alloc, right)?,
    })
}

/// An operator before its operand.
#[inline(always)]
fn boxed_unary(
    alloc: Global,
    at: u32,
    operator: UnaryOperator,
    operand: Expr,
) -> Result<Expr, AllocError>
    ensures { IfOk result (λ e. expression_of e ≡ Unary at operator (expression_of operand)) }
{
    Ok(Expr::Unary {
        at,
        operator,
        operand: Box::new(alloc, operand)?,
    })
}

/// What stands for an expression that wasn't read.
pub fn no_expression() -> Expr {
    Expr::Number { at: 0, value: 0 }
}

/// An operator between its operands; out of memory stops the reader.
fn binary<'a>(operator: BinaryOperator, left: Expr, right: Expr, at: &mut Reader<'a>) -> Expr
    ensures made { at.new.stopped ≡ None → (at.old.stopped ≡ None)
        × (expression_of result ≡ Binary operator (expression_of left) (expression_of right)) }
    ensures fault { (f : Fault) → at.new.stopped ≡ Some (stop.Fault f) → at.old.stopped ≡ Some (stop.Fault f) }
    ensures cursor { at.new.cursor ≡ at.old.cursor }
{
    at.or(
        boxed_binary(at.alloc, operator, left, right),
        no_expression(),
    )
}

/// An operator before its operand; out of memory stops the reader.
fn prefix<'a>(place: u32, operator: UnaryOperator, operand: Expr, at: &mut Reader<'a>) -> Expr
    ensures made { at.new.stopped ≡ None → (at.old.stopped ≡ None)
        × (expression_of result ≡ Unary place operator (expression_of operand)) }
    ensures fault { (f : Fault) → at.new.stopped ≡ Some (stop.Fault f) → at.old.stopped ≡ Some (stop.Fault f) }
    ensures cursor { at.new.cursor ≡ at.old.cursor }
{
    at.or(
        boxed_unary(at.alloc, place, operator, operand),
        no_expression(),
    )
}

fn special<'a, L: Limited>(wanted: Word, builtin: Builtin, at: &mut Reader<'a>) -> Expr
    ensures { Takes at.old at.new (expression_of result) (reads_flat L.limits (special wanted builtin) at.old.cursor) }
{
    let place = first_word::<L>(Counted::Operand, wanted, at);
    Expr::Builtin { at: place, builtin }
}

#[tactic(auto, unfolding(loft_grammar::specs::Expressions::builtin))]
fn builtin<'a, L: Limited>(at: &mut Reader<'a>) -> Expr
    ensures { Takes at.old at.new (expression_of result) (reads_flat L.limits builtin at.old.cursor) }
{
    if next_is_word(Word::SelfWord, &at.cursor) {
        special::<L>(Word::SelfWord, Builtin::Itself, at)
    } else if next_is_word(Word::Code, &at.cursor) {
        special::<L>(Word::Code, Builtin::Code, at)
    } else {
        special::<L>(Word::Mask, Builtin::Mask, at)
    }
}

#[cycle(expression)]
#[tactic(auto, unfolding(loft_grammar::specs::Expressions::bracketed, loft_grammar::specs::Expressions::expression, loft_grammar::specs::Expressions::disjunct), using(crate::proofs::Inside::inside_is))]
fn bracketed<'a, L: Limited>(deeper: u32, at: &mut Reader<'a>) -> Expr
    ensures { Takes at.old at.new (expression_of result) (reads L.limits deeper bracketed at.old.cursor) }
{
    opening_sign::<L>(deeper, Sign::Open, at);
    if !at.goes_on() {
        return no_expression();
    }
    let e = chain::<L>(deeper - 1, Level::Disjunction, at);
    sign::<L>(Sign::Close, at);
    e
}

#[cycle(expression)]
#[tactic(auto, unfolding(loft_grammar::specs::Expressions::atom, loft_grammar::specs::Expressions::builtin))]
#[inline(always)]
fn atom<'a, L: Limited>(deeper: u32, at: &mut Reader<'a>) -> Expr
    ensures { Takes at.old at.new (expression_of result) (reads L.limits deeper atom at.old.cursor) }
{
    if next_is_number(&at.cursor) {
        let (place, value) = numeral::<L>(Some(Counted::Operand), at);
        Expr::Number { at: place, value }
    } else if next_is_name(&at.cursor) {
        let name = name::<L>(Some(Counted::Operand), at);
        Expr::Name(name)
    } else if next_builtin(&at.cursor) {
        builtin::<L>(at)
    } else {
        bracketed::<L>(deeper, at)
    }
}

/// Reads this operator before its operand.
#[cycle(expression)]
#[tactic(auto, using(crate::proofs::Inside::inside_is))]
fn prefixed<'a, L: Limited>(
    deeper: u32,
    wanted: Sign,
    operator: UnaryOperator,
    at: &mut Reader<'a>,
) -> Expr
    ensures { Takes at.old at.new (expression_of result) (reads L.limits deeper (prefixed wanted operator) at.old.cursor) }
{
    let place = opening_sign::<L>(deeper, wanted, at);
    if !at.goes_on() {
        return no_expression();
    }
    let operand = unary::<L>(deeper - 1, at);
    prefix(place, operator, operand, at)
}

#[cycle(expression)]
#[tactic(auto, unfolding(loft_grammar::specs::Expressions::unary, loft_grammar::specs::Expressions::negated, loft_grammar::specs::Expressions::inverted))]
#[inline(always)]
fn unary<'a, L: Limited>(deeper: u32, at: &mut Reader<'a>) -> Expr
    ensures { Takes at.old at.new (expression_of result) (reads L.limits deeper unary at.old.cursor) }
{
    if next_is_sign(Sign::Minus, &at.cursor) {
        prefixed::<L>(deeper, Sign::Minus, UnaryOperator::Minus, at)
    } else if next_is_sign(Sign::Not, &at.cursor) {
        prefixed::<L>(deeper, Sign::Not, UnaryOperator::Not, at)
    } else {
        atom::<L>(deeper, at)
    }
}

/// Reads an operand of the level.
#[cycle(expression)]
#[tactic(auto, unfolding(loft_grammar::specs::Expressions::term, loft_grammar::specs::Expressions::factor, loft_grammar::specs::Expressions::conjunction, loft_grammar::specs::Expressions::conjunct))]
#[inline(always)]
fn operand<'a, L: Limited>(deeper: u32, level: Level, at: &mut Reader<'a>) -> Expr
    ensures { Takes at.old at.new (expression_of result) (reads L.limits deeper (operand_at level) at.old.cursor) }
{
    match level {
        Level::Product => unary::<L>(deeper, at),
        Level::Sum => chain::<L>(deeper, Level::Product, at),
        Level::Conjunction => comparison::<L>(deeper, at),
        Level::Disjunction => chain::<L>(deeper, Level::Conjunction, at),
    }
}

/// Reads an operator of the level, and the operand after it.
#[cycle(expression)]
#[tactic(auto, using(crate::proofs::Chains::flat_operator))]
#[inline(always)]
fn operation<'a, L: Limited>(
    deeper: u32,
    level: Level,
    at: &mut Reader<'a>,
) -> (BinaryOperator, Expr)
    ensures { Takes at.old at.new (operation_of result) (reads L.limits deeper (operation_at level) at.old.cursor) }
{
    let operator = operator_at::<L>(level, at);
    let right = operand::<L>(deeper, level, at);
    (operator, right)
}

/// Reads operands of the level with its operators between them, which group to the left.
#[cycle(expression)]
fn chain<'a, L: Limited>(deeper: u32, level: Level, at: &mut Reader<'a>) -> Expr
    ensures { Takes at.old at.new (expression_of result) (reads L.limits deeper (chain_at level) at.old.cursor) }
{
    if next_stands_alone(level, &at.cursor) {
        return unary::<L>(deeper, at);
    }
    let mut left = operand::<L>(deeper, level, at);
    'chain: while at.goes_on() && next_operation(level, &at.cursor) {
        let (operator, right) = operation::<L>(deeper, level, at);
        left = binary(operator, left, right, at);
    }
    left
}

#[cycle(expression)]
#[tactic(auto, unfolding(loft_grammar::specs::Expressions::compared, loft_grammar::specs::Expressions::equality, loft_grammar::specs::Expressions::ordering, loft_grammar::specs::Expressions::sum, loft_grammar::specs::Expressions::summand))]
#[inline(always)]
fn compared<'a, L: Limited>(deeper: u32, at: &mut Reader<'a>) -> (BinaryOperator, Expr)
    ensures { Takes at.old at.new (operation_of result) (reads L.limits deeper compared at.old.cursor) }
{
    let operator = comparing::<L>(at);
    let right = chain::<L>(deeper, Level::Sum, at);
    (operator, right)
}

#[cycle(expression)]
#[tactic(auto, unfolding(loft_grammar::specs::Expressions::comparison, loft_grammar::specs::Expressions::sum, loft_grammar::specs::Expressions::summand))]
#[inline(always)]
fn comparison<'a, L: Limited>(deeper: u32, at: &mut Reader<'a>) -> Expr
    ensures { Takes at.old at.new (expression_of result) (reads L.limits deeper comparison at.old.cursor) }
{
    let left = chain::<L>(deeper, Level::Sum, at);
    if next_compared(&at.cursor) {
        let (operator, right) = compared::<L>(deeper, at);
        binary(operator, left, right, at)
    } else {
        left
    }
}

/// Reads an expression that is no part of another.
#[tactic(auto, unfolding(loft_grammar::specs::Expressions::whole, loft_grammar::specs::Expressions::expression, loft_grammar::specs::Expressions::disjunct))]
pub fn whole<'a, L: Limited>(deeper: u32, at: &mut Reader<'a>) -> Expr
    ensures { Takes at.old at.new (expression_of result) (reads L.limits deeper whole at.old.cursor) }
{
    at.count_anew(Counted::Operand);
    chain::<L>(deeper, Level::Disjunction, at)
}
