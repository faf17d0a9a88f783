//! Values and operators (docs/SEMANTICS.md, "Expressions").

ghost use Rattle.std.specs.Prelude.{◌≡◌};
ghost use Rattle.std.specs.Option.{option_map};
ghost use Rattle.loft_base.specs.declared.ids.Value.TheVariants as value;
ghost use Rattle.loft_sense.specs.Eval.{number_of as number_in, thread_or as thread_in, same_value as same_value_as, is_true as is_true_as, truth as truth_of, unary_value as unary_value_of, binary_value as binary_value_of};
ghost use Rattle.loft_effect.specs.View.{answer_of};

use crate::around::same_thread;
use loft_base::{Div, ThreadId, Value, add, mul, quot, rem, sub};
use loft_tree::{BinaryOperator, UnaryOperator};

/// A value as a number; a thread counts as 0.
pub fn number_of(value: Value) -> i64
    ensures { result ≡ number_in value }
{
    match value {
        Value::Int(n) => n,
        Value::Thread(_) => 0,
    }
}

/// A value as a thread; a number counts as this one.
pub fn thread_or(this: ThreadId, value: Value) -> ThreadId
    ensures { result ≡ thread_in this value }
{
    match value {
        Value::Int(_) => this,
        Value::Thread(thread) => thread,
    }
}

/// Whether the two values are one.
pub fn same_value(a: Value, b: Value) -> bool
    ensures { result ≡ same_value_as a b }
{
    match (a, b) {
        (Value::Int(a), Value::Int(b)) => a == b,
        (Value::Int(_), Value::Thread(_)) => false,
        (Value::Thread(_), Value::Int(_)) => false,
        (Value::Thread(a), Value::Thread(b)) => same_thread(a, b),
    }
}

/// A number that isn't 0 is true.
pub fn is_true(n: i64) -> bool
    ensures { result ≡ is_true_as n }
{
    !(n == 0)
}

/// An answer as a number: 1 or 0.
pub fn truth(answer: bool) -> i64
    ensures { value.Int result ≡ truth_of answer }
{
    if answer { 1 } else { 0 }
}

/// The value of an operator before its operand.
pub fn unary_value(operator: UnaryOperator, n: i64) -> i64
    ensures { value.Int result ≡ unary_value_of operator n }
{
    match operator {
        UnaryOperator::Minus => sub(0, n),
        UnaryOperator::Not => truth(!is_true(n)),
    }
}

/// The value of an operator between two numbers. `Div` comes exactly where it divides by 0.
pub fn binary_value(operator: BinaryOperator, m: i64, n: i64) -> Result<i64, Div>
    ensures { option_map value.Int (answer_of result)
        ≡ binary_value_of operator (value.Int m) (value.Int n) }
{
    Ok(match operator {
        BinaryOperator::Or => truth(is_true(m) || is_true(n)),
        BinaryOperator::And => truth(is_true(m) && is_true(n)),
        BinaryOperator::Equal => truth(m == n),
        BinaryOperator::Unequal => truth(!(m == n)),
        BinaryOperator::Less => truth(m < n),
        BinaryOperator::LessOrEqual => truth(m <= n),
        BinaryOperator::Greater => truth(m > n),
        BinaryOperator::GreaterOrEqual => truth(m >= n),
        BinaryOperator::Plus => add(m, n),
        BinaryOperator::Minus => sub(m, n),
        BinaryOperator::Times => mul(m, n),
        BinaryOperator::Divide => return quot(m, n),
        BinaryOperator::Remainder => return rem(m, n),
    })
}
