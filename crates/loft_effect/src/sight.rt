//! What expressions see (docs/SEMANTICS.md, "Expressions").

ghost use Rattle.std.specs.Prelude.{◌≡◌, Some, IfSome};
ghost use Rattle.std.specs.Option.{option_map, option_and_then};
ghost use Rattle.loft_base.specs.declared.ids.Value.TheVariants as value;
ghost use Rattle.loft_tree.specs.NamedView.{term_of};
ghost use Rattle.loft_tree.specs.Resolved.{exp_of};
ghost use Rattle.loft_sense.specs.Heads.{rank as rank_of};
ghost use Rattle.loft_sense.specs.Around.{Around};
ghost use Rattle.loft_sense.specs.Eval.{eval, number_of as number_in, same_value as same_value_as, binary_value as binary_value_of, slot_value, shared_value, special_value};
ghost use Rattle.loft_effect.specs.View.{answer_of};

use crate::value::{binary_value, number_of, same_value, truth, unary_value};
use loft_base::{Div, SharedId, ThreadId, Value};
use loft_tree::{BinaryOperator, Builtin, Heads, NamedExpr};

/// What the expressions of a thread see in one of its frames: nothing of it is moved or copied.
#[derive(Clone, Copy)]
pub struct Sight<'a> {
    pub heads: &'a Heads,
    /// The parameters of the frame, then its local variables.
    pub values: &'a [Value],
    /// The values of the shared variables of the thread's place, in the order of their declarations.
    pub shared: &'a [i64],
    pub id: ThreadId,
    pub code: i64,
    pub mask: i64,
}

/// The index of a shared variable among those of its scheduler.
pub fn rank(heads: &Heads, shared: SharedId) -> usize
    ensures { result ≡ rank_of heads.now shared }
{
    heads.shared.rank(shared.0 as usize)
}

impl Sight<'_> {
    ghost use Rattle.loft_effect.specs.View.{beside_in, value_in};

    /// A parameter or a local variable; 0 where there is none.
    fn slot(&self, slot: u32) -> Value
        ensures { result ≡ slot_value self.now.values.now slot }
    {
        match self.values.get(slot as usize) {
            Some(value) => *value,
            None => Value::Int(0),
        }
    }

    /// A shared variable of the thread's place; 0 where there is none.
    fn shared(&self, shared: SharedId) -> i64
        ensures { value.Int result
            ≡ shared_value self.now.shared.now (rank_of self.now.heads.now shared) }
    {
        match self.shared.get(rank(self.heads, shared)) {
            Some(n) => *n,
            None => 0,
        }
    }

    /// What a thread has without naming it.
    fn special(&self, builtin: Builtin) -> Value
        ensures { (around : Around) → result ≡ special_value builtin (beside_in self.now around) }
    {
        match builtin {
            Builtin::Itself => Value::Thread(self.id),
            Builtin::Code => Value::Int(self.code),
            Builtin::Mask => Value::Int(self.mask),
        }
    }

    /// The value of an expression that has this number: a thread where it gives one.
    fn with_number(&self, e: &NamedExpr, n: i64) -> Value
        ensures { (around : Around) → option_map number_in (value_in self.now around e.now) ≡ Some n
            → value_in self.now around e.now ≡ Some result }
    {
        match e {
            NamedExpr::Slot(slot) => self.slot(*slot),
            NamedExpr::Builtin(builtin) => self.special(*builtin),
            NamedExpr::Number(_)
            | NamedExpr::Shared { .. }
            | NamedExpr::Unary { .. }
            | NamedExpr::Binary { .. } => Value::Int(n),
        }
    }

    /// Whether two expressions with these numbers have the same value.
    fn are_same(&self, left: &NamedExpr, m: i64, right: &NamedExpr, n: i64) -> bool
        ensures { (around : Around)
            → option_map number_in (value_in self.now around left.now) ≡ Some m
            → option_map number_in (value_in self.now around right.now) ≡ Some n
            → option_and_then
            (λ a. option_map (same_value_as a) (value_in self.now around right.now))
            (value_in self.now around left.now) ≡ Some result }
    {
        same_value(self.with_number(left, m), self.with_number(right, n))
    }

    /// The value of an operator between two expressions with these numbers, as a number. `Div` comes exactly where it
    /// divides by 0.
    fn between(
        &self,
        operator: BinaryOperator,
        left: &NamedExpr,
        m: i64,
        right: &NamedExpr,
        n: i64,
    ) -> Result<i64, Div>
        ensures { (around : Around)
            → option_map number_in (value_in self.now around left.now) ≡ Some m
            → option_map number_in (value_in self.now around right.now) ≡ Some n
            → answer_of result ≡ option_map number_in (option_and_then
            (λ a. option_and_then (binary_value_of operator a) (value_in self.now around right.now))
            (value_in self.now around left.now)) }
    {
        match operator {
            BinaryOperator::Equal => Ok(truth(self.are_same(left, m, right, n))),
            BinaryOperator::Unequal => Ok(truth(!self.are_same(left, m, right, n))),
            _ => binary_value(operator, m, n),
        }
    }

    /// The value of a number or of a variable of the frame, as a number, and none for other expressions.
    fn leaf(&self, e: &NamedExpr) -> Option<i64>
        ensures { IfSome result (λ n. (around : Around)
            → Some n ≡ option_map number_in (value_in self.now around e.now)) }
    {
        match e {
            NamedExpr::Number(n) => Some(*n),
            NamedExpr::Slot(slot) => Some(number_of(self.slot(*slot))),
            NamedExpr::Shared { .. }
            | NamedExpr::Builtin(_)
            | NamedExpr::Unary { .. }
            | NamedExpr::Binary { .. } => None,
        }
    }

    /// The value of an expression as a number; that of a leaf is read without a further call. `Div` comes exactly where a
    /// divisor is 0.
    #[cycle(number)]
    #[inline(always)]
    fn number(&self, e: &NamedExpr) -> Result<i64, Div>
        ensures { (around : Around) → answer_of result
            ≡ option_map number_in (value_in self.now around e.now) }
    {
        match self.leaf(e) {
            Some(n) => Ok(n),
            None => self.deep_number(e),
        }
    }

    /// The same of an expression of any form.
    #[cycle(number)]
    #[inline(never)]
    fn deep_number(&self, e: &NamedExpr) -> Result<i64, Div>
        ensures { (around : Around) → answer_of result
            ≡ option_map number_in (value_in self.now around e.now) }
    {
        match e {
            NamedExpr::Number(n) => Ok(*n),
            NamedExpr::Slot(slot) => Ok(number_of(self.slot(*slot))),
            NamedExpr::Shared { at: _, shared } => Ok(self.shared(*shared)),
            NamedExpr::Builtin(builtin) => Ok(number_of(self.special(*builtin))),
            NamedExpr::Unary { operator, operand } => {
                Ok(unary_value(*operator, self.number(operand)?))
            }
            NamedExpr::Binary {
                operator,
                left,
                right,
            } => {
                let m = self.number(left)?;
                let n = self.number(right)?;
                self.between(*operator, left, m, right, n)
            }
        }
    }

    /// The value of an expression, whatever else stands around the thread. `Div` comes exactly where a divisor is 0.
    #[inline(always)]
    pub fn value(&self, e: &NamedExpr) -> Result<Value, Div>
        ensures { (around : Around) → answer_of result
            ≡ eval self.now.heads.now self.now.values.now (beside_in self.now around) (exp_of (term_of e.now)) }
    {
        let n = self.number(e)?;
        Ok(self.with_number(e, n))
    }
}
