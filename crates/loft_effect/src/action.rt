//! What an action does, after which its thread goes on at once or ends (docs/SEMANTICS.md, "Statements").

ghost use Rattle.std.specs.Prelude.{◌≡◌, ◌++◌, map, IfOk, Some};
ghost use Rattle.loft_tree.specs.NamedView.{term_of, value_of};
ghost use Rattle.loft_tree.specs.Resolved.{exp_of, exp_if, exps_of, target_of, target_if, Assign, Make, PrintText, PrintValue, Generate, ControlThread, Broadcast};
ghost use Rattle.loft_code.specs.View.{action_of};
ghost use Rattle.loft_sense.specs.Heads.{home as home_of};
ghost use Rattle.loft_sense.specs.Eval.{eval_all};
ghost use Rattle.loft_sense.specs.Statements.{did, printed, text_if as text_of, order_of as order_for};
ghost use Rattle.loft_effect.specs.View.{answer_of, beside_of};
ghost use Rattle.loft_effect.specs.Effects.{Does};

use crate::effect::Effect;
use crate::scope::{Beside, Scope, number_if};
use crate::value::thread_or;
use loft_base::{Div, EventId, NoMemory, SchedId, Sequence, ThreadId, Value, Values};
use loft_orders::{Act, End, Line, Order, SharedValues, To};
use loft_tree::{Action, Control, Heads, NamedCreation, NamedExpr, SharedText, Target};
use loft_value_text::{Item, LineBuffer};
use std::alloc::Global;

/// The scheduler on whose board the event stands.
fn home(heads: &Heads, event: EventId) -> SchedId
    ensures { result ≡ home_of heads.now event }
{
    match heads.events.as_slice().get(event.0 as usize) {
        Some(head) => head.scheduler,
        None => SchedId(0),
    }
}

/// What one thread orders of another.
fn order_of(control: Control, thread: ThreadId) -> Order
    ensures { result ≡ order_for control thread }
{
    match control {
        Control::Stop => Order::Stop(thread),
        Control::Suspend => Order::Suspend(thread),
        Control::Resume => Order::Resume(thread),
    }
}

/// The line of a text, with the text of a value after it, where there is one.
fn text_line(
    alloc: Global,
    heads: &Heads,
    text: &SharedText,
    value: Option<Value>,
) -> Result<Line, NoMemory>
    ensures { IfOk result (λ line. line ≡ text.now ++ text_of heads.now value) }
{
    match value {
        Some(value) => line_with(alloc, heads, text, value),
        None => Ok(Line::from_text(text.share()?)),
    }
}

/// The line of a text with the text of a value after it.
fn line_with(
    alloc: Global,
    heads: &Heads,
    text: &SharedText,
    value: Value,
) -> Result<Line, NoMemory>
    ensures { IfOk result (λ line. line ≡ text.now ++ text_of heads.now (Some value)) }
{
    let mut line = LineBuffer::new(alloc);
    line.bytes(text.bytes());
    value.push_to(&mut line, heads);
    line.into_line()
}

impl Scope {
    /// The values of expressions in order. `Div` comes exactly where a divisor is 0.
    pub fn values(
        &self,
        alloc: Global,
        heads: &Heads,
        beside: &Beside,
        es: &[NamedExpr],
    ) -> Result<Result<Values, Div>, NoMemory>
        ensures { IfOk result (λ values. answer_of values
            ≡ eval_all heads.now self.now.values (beside_of beside.now) (exps_of (map term_of es.now))) }
    {
        let mut values = Sequence::from_vec(Vec::with_capacity(alloc, es.len())?);
        for e in es {
            match self.value(heads, beside, e) {
                Ok(value) => values.push(value)?,
                Err(div) => return Ok(Err(div)),
            }
        }
        Ok(Ok(values))
    }

    /// `x = E;`
    #[inline(always)]
    fn assign(
        &mut self,
        heads: &Heads,
        beside: &mut Beside,
        target: Target,
        e: &NamedExpr,
    ) -> Effect
        ensures { Does result self.old beside.old self.new beside.new
            (did heads.now (Assign (target_of target) (exp_of (term_of e.now))) self.old.at self.old.values (beside_of beside.old)) }
    {
        let Ok(value) = self.value(heads, beside, e) else {
            return Effect::Dies(End::Div(self.at));
        };
        self.set(heads, beside, target, value);
        Effect::GoesOn
    }

    /// A line is printed.
    fn print(&self, beside: &mut Beside, line: Line) -> Result<Effect, NoMemory>
        ensures { IfOk result (λ e. Does e self.now beside.old self.now beside.new
            (printed line self.now.at self.now.values (beside_of beside.old))) }
    {
        if !beside.around.has_room() {
            return Ok(Effect::Dies(End::Flood(self.at)));
        }
        let thread = beside.id;
        beside.around.enter(Act::Print { thread, line })?;
        Ok(Effect::GoesOn)
    }

    /// `print "..";` or `print "..", E;`
    fn print_text(
        &self,
        alloc: Global,
        heads: &Heads,
        beside: &mut Beside,
        text: &SharedText,
        e: &Option<NamedExpr>,
    ) -> Result<Effect, NoMemory>
        ensures { IfOk result (λ effect. Does effect self.now beside.old self.now beside.new
            (did heads.now (PrintText text.now (exp_if (value_of e.now))) self.now.at self.now.values (beside_of beside.old))) }
    {
        let Ok(value) = self.value_if(heads, beside, e) else {
            return Ok(Effect::Dies(End::Div(self.at)));
        };
        let line = text_line(alloc, heads, text, value)?;
        self.print(beside, line)
    }

    /// `print E;`
    fn print_value(
        &self,
        alloc: Global,
        heads: &Heads,
        beside: &mut Beside,
        e: &NamedExpr,
    ) -> Result<Effect, NoMemory>
        ensures { IfOk result (λ effect. Does effect self.now beside.old self.now beside.new
            (did heads.now (PrintValue (exp_of (term_of e.now))) self.now.at self.now.values (beside_of beside.old))) }
    {
        let Ok(value) = self.value(heads, beside, e) else {
            return Ok(Effect::Dies(End::Div(self.at)));
        };
        let mut line = LineBuffer::new(alloc);
        value.push_to(&mut line, heads);
        self.print(beside, line.into_line()?)
    }

    /// `generate e;` or `generate e, E;`
    fn generate(
        &self,
        alloc: Global,
        heads: &Heads,
        beside: &mut Beside,
        event: EventId,
        e: &Option<NamedExpr>,
    ) -> Result<Effect, NoMemory>
        ensures { IfOk result (λ effect. Does effect self.now beside.old self.now beside.new
            (did heads.now (Generate event (exp_if (value_of e.now))) self.now.at self.now.values (beside_of beside.old))) }
    {
        let Ok(value) = self.value_if(heads, beside, e) else {
            return Ok(Effect::Dies(End::Div(self.at)));
        };
        if !beside.around.has_room() {
            return Ok(Effect::Dies(End::Flood(self.at)));
        }
        let value = number_if(value);
        beside.around.generate(alloc, event, value)?;
        let thread = beside.id;
        beside.around.enter(Act::Gen {
            thread,
            event,
            value,
        })?;
        Ok(Effect::GoesOn)
    }

    /// `stop E in S;`, `suspend E in S;` or `resume E in S;`
    fn control(
        &self,
        alloc: Global,
        heads: &Heads,
        beside: &mut Beside,
        control: Control,
        e: &NamedExpr,
        scheduler: SchedId,
    ) -> Result<Effect, NoMemory>
        ensures { IfOk result (λ effect. Does effect self.now beside.old self.now beside.new
            (did heads.now (ControlThread control (exp_of (term_of e.now)) scheduler) self.now.at self.now.values (beside_of beside.old))) }
    {
        let Ok(value) = self.value(heads, beside, e) else {
            return Ok(Effect::Dies(End::Div(self.at)));
        };
        if !beside.around.has_room() {
            return Ok(Effect::Dies(End::Flood(self.at)));
        }
        let order = order_of(control, thread_or(beside.id, value));
        beside.send(alloc, To::Sched(scheduler), order)?;
        Ok(Effect::GoesOn)
    }

    /// `broadcast e;` or `broadcast e, E;`
    fn broadcast(
        &self,
        alloc: Global,
        heads: &Heads,
        beside: &mut Beside,
        event: EventId,
        e: &Option<NamedExpr>,
    ) -> Result<Effect, NoMemory>
        ensures { IfOk result (λ effect. Does effect self.now beside.old self.now beside.new
            (did heads.now (Broadcast event (exp_if (value_of e.now))) self.now.at self.now.values (beside_of beside.old))) }
    {
        let Ok(value) = self.value_if(heads, beside, e) else {
            return Ok(Effect::Dies(End::Div(self.at)));
        };
        if !beside.around.has_room() {
            return Ok(Effect::Dies(End::Flood(self.at)));
        }
        let value = number_if(value);
        beside.send(
            alloc,
            To::Sched(home(heads, event)),
            Order::Broadcast { event, value },
        )?;
        Ok(Effect::GoesOn)
    }

    /// `create S.m(E, F);`, whose thread the variable is set to, if there is one.
    fn create(
        &mut self,
        alloc: Global,
        heads: &Heads,
        beside: &mut Beside,
        target: Option<Target>,
        creation: &NamedCreation,
    ) -> Result<Effect, NoMemory>
        ensures { IfOk result (λ effect. Does effect self.old beside.old self.new beside.new
            (did heads.now (Make (target_if target) creation.now.scheduler creation.now.«module» (exps_of (map term_of creation.now.arguments.items))) self.old.at self.old.values (beside_of beside.old))) }
    {
        let Ok(args) = self.values(alloc, heads, beside, creation.arguments.as_slice())? else {
            return Ok(Effect::Dies(End::Div(self.at)));
        };
        if !beside.around.has_room() {
            return Ok(Effect::Dies(End::Flood(self.at)));
        }
        let args = SharedValues::from_slice(alloc, args.as_slice())?;
        let thread = beside.around.new_id();
        beside.make(
            alloc,
            To::Sched(creation.scheduler),
            Order::Create {
                thread,
                module: creation.module,
                args,
            },
        )?;
        if let Some(target) = target {
            self.set(heads, beside, target, Value::Thread(thread));
        }
        Ok(Effect::GoesOn)
    }

    /// An action of any form.
    #[inline(never)]
    fn act_further(
        &mut self,
        alloc: Global,
        heads: &Heads,
        beside: &mut Beside,
        action: &Action,
    ) -> Result<Effect, NoMemory>
        ensures { IfOk result (λ effect. Does effect self.old beside.old self.new beside.new
            (did heads.now (action_of action.now) self.old.at self.old.values (beside_of beside.old))) }
    {
        match action {
            Action::Assign { target, value } => Ok(self.assign(heads, beside, *target, value)),
            Action::Make { target, creation } => {
                self.create(alloc, heads, beside, *target, creation)
            }
            Action::PrintText { text, value } => self.print_text(alloc, heads, beside, text, value),
            Action::PrintValue(value) => self.print_value(alloc, heads, beside, value),
            Action::Generate { event, value } => {
                self.generate(alloc, heads, beside, event.event, value)
            }
            Action::Control {
                control,
                thread,
                scheduler,
            } => self.control(alloc, heads, beside, *control, thread, *scheduler),
            Action::Broadcast { event, value } => {
                self.broadcast(alloc, heads, beside, event.event, value)
            }
        }
    }

    /// An action. An assignment is made without a further call.
    #[inline(always)]
    pub fn act(
        &mut self,
        alloc: Global,
        heads: &Heads,
        beside: &mut Beside,
        action: &Action,
    ) -> Result<Effect, NoMemory>
        ensures { IfOk result (λ effect. Does effect self.old beside.old self.new beside.new
            (did heads.now (action_of action.now) self.old.at self.old.values (beside_of beside.old))) }
    {
        match action {
            Action::Assign { target, value } => Ok(self.assign(heads, beside, *target, value)),
            _ => self.act_further(alloc, heads, beside, action),
        }
    }
}
