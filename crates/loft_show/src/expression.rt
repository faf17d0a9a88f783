//! Expressions.

ghost use Rattle.std.specs.Prelude.{◌≡◌, ◌++◌, true};
ghost use Rattle.loft_tree.specs.Levels.{operator_level, level, left_bracketed, right_bracketed, sign_bracketed};
ghost use Rattle.loft_tree.specs.View.{expression_of};
ghost use Rattle.loft_show.specs.Canon.{builtin_word, unary_sign, binary_sign, held, expression_pieces, pieces_text};

use crate::list::Listed;
use crate::pieces::{put_name, put_number, put_sign, put_word};
use loft_base::Out;
use loft_lex::{Sign, Word};
use loft_tree::{BinaryOperator, Builtin, Expr, UnaryOperator};

/// The level of comparisons.
const COMPARISON: u8 = 3;

/// The level of signs.
const SIGN: u8 = 6;

/// The level of what is no operator.
const OPERAND: u8 = 7;

/// How strongly an operator binds.
fn operator_level(operator: BinaryOperator) -> u8
    ensures { result ≡ operator_level operator }
{
    match operator {
        BinaryOperator::Or => 1,
        BinaryOperator::And => 2,
        BinaryOperator::Equal
        | BinaryOperator::Unequal
        | BinaryOperator::Less
        | BinaryOperator::LessOrEqual
        | BinaryOperator::Greater
        | BinaryOperator::GreaterOrEqual => COMPARISON,
        BinaryOperator::Plus | BinaryOperator::Minus => 4,
        BinaryOperator::Times | BinaryOperator::Divide | BinaryOperator::Remainder => 5,
    }
}

/// How strongly what stands outermost in an expression binds.
fn level(expression: &Expr) -> u8
    ensures { result ≡ level (expression_of expression.now) }
{
    match expression {
        Expr::Number { .. } | Expr::Name(_) | Expr::Builtin { .. } => OPERAND,
        Expr::Unary { .. } => SIGN,
        Expr::Binary { operator, .. } => operator_level(*operator),
    }
}

/// Whether a left operand stands in brackets.
fn left_bracketed(operator: BinaryOperator, operand: &Expr) -> bool
    ensures { result ≡ left_bracketed operator (expression_of operand.now) }
{
    let outer = operator_level(operator);
    let inner = level(operand);
    inner < outer || (outer == COMPARISON && inner == COMPARISON)
}

/// Whether a right operand stands in brackets.
fn right_bracketed(operator: BinaryOperator, operand: &Expr) -> bool
    ensures { result ≡ right_bracketed operator (expression_of operand.now) }
{
    level(operand) <= operator_level(operator)
}

/// Whether the operand of a sign stands in brackets.
fn sign_bracketed(operand: &Expr) -> bool
    ensures { result ≡ sign_bracketed (expression_of operand.now) }
{
    level(operand) < SIGN
}

/// The word of a value that has no name.
fn builtin_word(builtin: Builtin) -> Word
    ensures { result ≡ builtin_word builtin }
{
    match builtin {
        Builtin::Itself => Word::SelfWord,
        Builtin::Code => Word::Code,
        Builtin::Mask => Word::Mask,
    }
}

/// The sign of an operator with one operand.
fn unary_sign(operator: UnaryOperator) -> Sign
    ensures { result ≡ unary_sign operator }
{
    match operator {
        UnaryOperator::Minus => Sign::Minus,
        UnaryOperator::Not => Sign::Not,
    }
}

/// The sign of an operator with two operands.
fn binary_sign(operator: BinaryOperator) -> Sign
    ensures { result ≡ binary_sign operator }
{
    match operator {
        BinaryOperator::Or => Sign::Or,
        BinaryOperator::And => Sign::And,
        BinaryOperator::Equal => Sign::Same,
        BinaryOperator::Unequal => Sign::Differs,
        BinaryOperator::Less => Sign::Less,
        BinaryOperator::LessOrEqual => Sign::LessOrSame,
        BinaryOperator::Greater => Sign::Greater,
        BinaryOperator::GreaterOrEqual => Sign::GreaterOrSame,
        BinaryOperator::Plus => Sign::Plus,
        BinaryOperator::Minus => Sign::Minus,
        BinaryOperator::Times => Sign::Star,
        BinaryOperator::Divide => Sign::Slash,
        BinaryOperator::Remainder => Sign::Percent,
    }
}

/// Appends blanks and an expression.
#[cycle(expression)]
#[tactic(auto, using(crate::proofs::Texts::texts))]
pub fn put_expression(out: &mut Out, gap: &[u8], expression: &Expr)
    ensures before { out.new.is_whole ≡ true → out.old.is_whole ≡ true }
    ensures text { out.new.is_whole ≡ true → out.new.text.items ≡ out.old.text.items ++ pieces_text
        (expression_pieces (expression_of expression.now) gap.now) }
{
    match expression {
        Expr::Number { value, .. } => put_number(out, gap, *value),
        Expr::Name(name) => put_name(out, gap, name),
        Expr::Builtin { builtin, .. } => put_word(out, gap, builtin_word(*builtin)),
        Expr::Unary {
            operator,
            operand,
            ..
        } => {
            put_sign(out, gap, unary_sign(*operator));
            put_operand(out, b"", operand, sign_bracketed(operand))
        }
        Expr::Binary {
            operator,
            left,
            right,
        } => {
            put_operand(out, gap, left, left_bracketed(*operator, left));
            put_sign(out, b" ", binary_sign(*operator));
            put_operand(out, b" ", right, right_bracketed(*operator, right))
        }
    }
}

/// Appends blanks and an operand, with brackets or without.
#[cycle(expression)]
#[tactic(auto, using(crate::proofs::Texts::texts))]
fn put_operand(out: &mut Out, gap: &[u8], operand: &Expr, bracketed: bool)
    ensures before { out.new.is_whole ≡ true → out.old.is_whole ≡ true }
    ensures text { out.new.is_whole ≡ true → out.new.text.items ≡ out.old.text.items ++ pieces_text
        (held bracketed (expression_pieces (expression_of operand.now)) gap.now) }
{
    if !bracketed {
        return put_expression(out, gap, operand);
    }
    put_sign(out, gap, Sign::Open);
    put_expression(out, b"", operand);
    put_sign(out, b"", Sign::Close)
}

impl Listed for Expr {
    ghost pieces = { λ e. expression_pieces (expression_of e) };

    fn put(&self, out: &mut Out, gap: &[u8]) {
        put_expression(out, gap, self)
    }
}
