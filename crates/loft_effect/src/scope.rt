//! A frame that runs, and what stands beside the frames of its thread (docs/SEMANTICS.md, "Expressions").

ghost use Rattle.std.specs.Prelude.{◌≡◌, ℕ, ◌<◌, OnOk};
ghost use Rattle.loft_tree.specs.NamedView.{term_of, value_of};
ghost use Rattle.loft_tree.specs.Resolved.{exp_of, exp_if, target_of};
ghost use Rattle.loft_sense.specs.Eval.{eval, eval_if, number_if as number_of_if};
ghost use Rattle.loft_sense.specs.Run.{Ended, ends};
ghost use Rattle.loft_sense.specs.Statements.{most_entries, now, create, send as send_to, set as set_to};
ghost use Rattle.loft_effect.specs.View.{answer_of, around_of, beside_of, beside_in, pace_of};

use crate::around::Around;
use crate::sight::{Sight, rank};
use crate::value::number_of;
use loft_base::{Div, NoMemory, ThreadId, Value, Values};
use loft_orders::{Act, At, BoxedSent, End, Order, Sent, To};
use loft_tree::{Heads, NamedExpr, Target};
use std::alloc::Global;

/// What stands beside the frames of a running thread.
#[derive(Drop)]
pub struct Beside {
    pub id: ThreadId,
    /// How the last wait ended: 0 as it should, 1 as no instant was left, 2 without a value.
    pub code: i64,
    /// Which events the last `select` found.
    pub mask: i64,
    pub around: Around,
}

/// A frame that runs: its module and its last stop, and its values.
#[derive(Drop)]
pub struct Scope {
    pub at: At,
    /// The parameters, then the local variables.
    pub values: Values,
}

/// A value as a number, where there is one.
pub fn number_if(value: Option<Value>) -> Option<i64>
    ensures { result ≡ number_of_if value }
{
    match value {
        Some(value) => Some(number_of(value)),
        None => None,
    }
}

impl Beside {
    /// The thread sends an order, which is an entry of the instant.
    pub fn send(&mut self, alloc: Global, to: To, order: Order) -> Result<(), NoMemory>
        requires { self.old.around.entries < most_entries self.old.around.place }
        ensures sent { OnOk result (beside_of self.new ≡ send_to to order (beside_of self.old)) }
        ensures pace { OnOk result (pace_of self.new.around ≡ pace_of self.old.around) }
    {
        let thread = self.id;
        let sent = BoxedSent::new(alloc, Sent { to, order })?;
        self.around.enter(Act::Out { thread, sent })
    }

    /// The same of a create, which numbers the next one of its scheduler.
    pub fn make(&mut self, alloc: Global, to: To, order: Order) -> Result<(), NoMemory>
        requires { self.old.around.entries < most_entries self.old.around.place }
        ensures made { OnOk result (beside_of self.new ≡ create to order (beside_of self.old)) }
        ensures pace { OnOk result (pace_of self.new.around ≡ pace_of self.old.around) }
    {
        let thread = self.id;
        let sent = BoxedSent::new(alloc, Sent { to, order })?;
        self.around.create(Act::Out { thread, sent })
    }

    /// The thread ends, and is known as ended.
    pub fn end(&mut self, end: End) -> Result<(), NoMemory>
        ensures ended { OnOk result ((left : ℕ)
            → Ended end (around_of self.new.around) left ≡ ends end (beside_of self.old) left) }
        ensures pace { OnOk result (pace_of self.new.around ≡ pace_of self.old.around) }
    {
        let thread = self.id;
        self.around.known.push(thread)?;
        self.around.push(Act::End { thread, end })
    }
}

impl Scope {
    /// What expressions see in this frame.
    fn sight<'a>(&'a self, heads: &'a Heads, beside: &'a Beside) -> Sight<'a>
        ensures heads { result.heads.now ≡ heads.now }
        ensures values { result.values.now ≡ self.now.values }
        ensures beside { beside_in result (around_of beside.now.around) ≡ beside_of beside.now }
    {
        Sight {
            heads,
            values: self.values.as_slice(),
            shared: beside.around.shared.as_slice(),
            id: beside.id,
            code: beside.code,
            mask: beside.mask,
        }
    }

    /// The value of an expression. `Div` comes exactly where a divisor is 0.
    #[inline(always)]
    pub fn value(&self, heads: &Heads, beside: &Beside, e: &NamedExpr) -> Result<Value, Div>
        ensures { answer_of result
            ≡ eval heads.now self.now.values (beside_of beside.now) (exp_of (term_of e.now)) }
    {
        self.sight(heads, beside).value(e)
    }

    /// The value of an expression that may be missing.
    pub fn value_if(
        &self,
        heads: &Heads,
        beside: &Beside,
        e: &Option<NamedExpr>,
    ) -> Result<Option<Value>, Div>
        ensures { answer_of result
            ≡ eval_if heads.now self.now.values (beside_of beside.now) (exp_if (value_of e.now)) }
    {
        match e {
            Some(e) => Ok(Some(self.value(heads, beside, e)?)),
            None => Ok(None),
        }
    }

    /// The variable has this value from now on.
    pub fn set(&mut self, heads: &Heads, beside: &mut Beside, target: Target, value: Value)
        ensures set { now self.new.values (beside_of beside.new)
            ≡ set_to heads.now (target_of target) value self.old.values (beside_of beside.old) }
        ensures same_at { self.new.at ≡ self.old.at }
        ensures pace { pace_of beside.new.around ≡ pace_of beside.old.around }
    {
        match target {
            Target::Slot(slot) => {
                let slot = slot as usize;
                if slot < self.values.len() {
                    self.values.set(slot, value);
                }
            }
            Target::Shared { at: _, shared } => {
                beside
                    .around
                    .set_shared(rank(heads, shared), number_of(value));
            }
        }
    }
}
