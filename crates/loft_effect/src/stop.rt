//! Stops as they begin, and waits as they end (docs/SEMANTICS.md, "Statements").

ghost use Rattle.std.specs.Prelude.{◌≡◌, if◌then◌else◌, pos, IfOk, Option};
ghost use Rattle.std.specs.Option.{option_map};
ghost use Rattle.loft_base.specs.Arithmetic.{wrapped};
ghost use Rattle.loft_tree.specs.NamedView.{term_of, value_of};
ghost use Rattle.loft_tree.specs.Resolved as resolved;
ghost use Rattle.loft_tree.specs.Resolved.{exp_of, exp_if, target_of, Cooperate, Await, Get, Join};
ghost use Rattle.loft_code.specs.View.{events_in, pause_of};
ghost use Rattle.loft_sense.specs.CanGo.{ran_out as ran_out_of, has_any as has_any_of, count_of, is_over as is_over_at};
ghost use Rattle.loft_sense.specs.Statements.{now, begun, answered, is_up as is_up_of, mask_of as mask_on, mask_after as mask_after_on, events_end as events_end_of, gotten, code_after as code_after_of, target_of as target_in};
ghost use Rattle.loft_effect.specs.View.{beside_of, pace_of};
ghost use Rattle.loft_effect.specs.Effects.{Does};

use crate::around::Around;
use crate::effect::Effect;
use crate::scope::{Beside, Scope, number_if};
use crate::value::{number_of, thread_or};
use loft_base::{EventId, NoMemory, Sequence, Value, add, mul};
use loft_orders::{End, Events, To, Wait};
use loft_tree::{EventUse, Heads, NamedExpr, Pause, Target};
use std::alloc::Global;

/// The code of a wait that ended as it should.
const OK: i64 = 0;

/// The code of a wait of which no instant was left.
const TIMEOUT: i64 = 1;

/// The code of a wait for a value that did not come.
const NEXT: i64 = 2;

/// Whether there is a number, and it is 0.
pub fn ran_out(left: Option<i64>) -> bool
    ensures { result ≡ ran_out_of left }
{
    match left {
        Some(n) => n == 0,
        None => false,
    }
}

/// Whether no instant is left.
fn is_up(left: Option<i64>) -> bool
    ensures { result ≡ is_up_of left }
{
    match left {
        Some(n) => n <= 0,
        None => false,
    }
}

/// The code of a wait that ends.
fn code_after(left: Option<i64>) -> i64
    ensures { result ≡ code_after_of left }
{
    if ran_out(left) { TIMEOUT } else { OK }
}

/// Whether one of the events is present.
fn has_any(around: &Around, events: &[EventId]) -> bool
    ensures { result ≡ has_any_of events.now around.now.board }
{
    match events {
        [] => false,
        [event, events @ ..] => around.has(*event) || has_any(around, events),
    }
}

/// What an event counts: 1 where it is present.
fn bit(is_present: bool) -> i64
    ensures { result ≡ pos (if is_present then 1 else 0) }
{
    if is_present { 1 } else { 0 }
}

/// The first event counts 1 where it is present, and each further one twice as much as the one before it.
fn mask_of(around: &Around, events: &[EventId]) -> i64
    ensures { result ≡ wrapped (pos (mask_on events.now around.now.board)) }
{
    match events.split_first() {
        None => 0,
        Some((event, rest)) => add(bit(around.has(*event)), mul(2, mask_of(around, rest))),
    }
}

/// The events that a stop names.
fn events_from(alloc: Global, uses: &[EventUse]) -> Result<Events, NoMemory>
    ensures { IfOk result (λ events. events ≡ events_in uses.now) }
{
    let mut events = Sequence::from_vec(Vec::with_capacity(alloc, uses.len())?);
    for event in uses {
        events.push(event.event)?;
    }
    Ok(events)
}

impl Around {
    /// What the wait waits for is there, or no instant is left of it.
    pub fn is_over(&self, wait: &Wait) -> bool
        ensures { result ≡ is_over_at wait.now (count_of self.now.board) self.now.known }
    {
        match wait {
            Wait::New => true,
            Wait::Coop(left) => *left == 0,
            Wait::Events { events, left } => ran_out(*left) || has_any(self, events.as_slice()),
            Wait::Index { event, at } => self.value_at(*event, *at).is_some(),
            Wait::Next => true,
            Wait::Join { thread, left } => ran_out(*left) || self.is_known(*thread),
            Wait::Halt => false,
        }
    }
}

impl Beside {
    /// The mask after a wait for these events: only one for two or more sets it.
    fn mask_after(&self, events: &[EventId]) -> i64
        ensures { result ≡ mask_after_on events.now (beside_of self.now) }
    {
        match events {
            [] => self.mask,
            [_] => self.mask,
            [_, _, ..] => mask_of(&self.around, events),
        }
    }

    /// A wait for events ends.
    fn end_events(&mut self, events: &[EventId], code: i64)
        ensures ended { beside_of self.new ≡ events_end_of events.now code (beside_of self.old) }
        ensures pace { pace_of self.new.around ≡ pace_of self.old.around }
    {
        self.mask = self.mask_after(events);
        self.code = code;
    }
}

impl Scope {
    /// `cooperate;` or `cooperate E;`
    fn cooperate(&self, heads: &Heads, beside: &Beside, instants: &Option<NamedExpr>) -> Effect
        ensures { Does result self.now beside.now self.now beside.now
            (begun heads.now (Cooperate (exp_if (value_of instants.now))) self.now.at self.now.values (beside_of beside.now)) }
    {
        let Some(instants) = instants else {
            return Effect::Waits(Wait::Coop(1));
        };
        let Ok(value) = self.value(heads, beside, instants) else {
            return Effect::Dies(End::Div(self.at));
        };
        let left = number_of(value);
        if is_up(Some(left)) {
            Effect::GoesOn
        } else {
            Effect::Waits(Wait::Coop(left))
        }
    }

    /// `await e for E;` or `select e, g for E;`
    fn wait_for(
        &self,
        alloc: Global,
        heads: &Heads,
        beside: &mut Beside,
        uses: &[EventUse],
        limit: &Option<NamedExpr>,
    ) -> Result<Effect, NoMemory>
        ensures { IfOk result (λ effect. Does effect self.now beside.old self.now beside.new
            (begun heads.now (Await (events_in uses.now) (exp_if (value_of limit.now))) self.now.at self.now.values (beside_of beside.old))) }
    {
        let Ok(limit) = self.value_if(heads, beside, limit) else {
            return Ok(Effect::Dies(End::Div(self.at)));
        };
        let left = number_if(limit);
        let events = events_from(alloc, uses)?;
        if has_any(&beside.around, events.as_slice()) {
            beside.end_events(events.as_slice(), OK);
            return Ok(Effect::GoesOn);
        }
        if is_up(left) {
            beside.end_events(events.as_slice(), TIMEOUT);
            return Ok(Effect::GoesOn);
        }
        Ok(Effect::Waits(Wait::Events { events, left }))
    }

    /// `join E for F;`
    fn join(
        &self,
        heads: &Heads,
        beside: &mut Beside,
        thread: &NamedExpr,
        limit: &Option<NamedExpr>,
    ) -> Effect
        ensures { Does result self.now beside.old self.now beside.new
            (begun heads.now (Join (exp_of (term_of thread.now)) (exp_if (value_of limit.now))) self.now.at self.now.values (beside_of beside.old)) }
    {
        let Ok(value) = self.value(heads, beside, thread) else {
            return Effect::Dies(End::Div(self.at));
        };
        let Ok(limit) = self.value_if(heads, beside, limit) else {
            return Effect::Dies(End::Div(self.at));
        };
        let thread = thread_or(beside.id, value);
        let left = number_if(limit);
        if beside.around.is_known(thread) {
            beside.code = OK;
            return Effect::GoesOn;
        }
        if is_up(left) {
            beside.code = TIMEOUT;
            return Effect::GoesOn;
        }
        Effect::Waits(Wait::Join { thread, left })
    }

    /// `get e at E into x;`
    fn get(
        &mut self,
        heads: &Heads,
        beside: &mut Beside,
        event: EventId,
        index: &NamedExpr,
        target: Target,
    ) -> Effect
        ensures { Does result self.old beside.old self.new beside.new
            (begun heads.now (Get event (exp_of (term_of index.now)) (target_of target)) self.old.at self.old.values (beside_of beside.old)) }
    {
        let Ok(value) = self.value(heads, beside, index) else {
            return Effect::Dies(End::Div(self.at));
        };
        let at = number_of(value);
        match beside.around.value_at(event, at) {
            Some(_) => {
                self.take_value(heads, beside, Some(target), event, at);
                Effect::GoesOn
            }
            None => Effect::Waits(Wait::Index { event, at }),
        }
    }

    /// The variable of a wait for a value is set, if there is one.
    fn take_value(
        &mut self,
        heads: &Heads,
        beside: &mut Beside,
        target: Option<Target>,
        event: EventId,
        at: i64,
    )
        ensures gotten { now self.new.values (beside_of beside.new)
            ≡ gotten heads.now (option_map target_of target) event at self.old.values (beside_of beside.old) }
        ensures same_at { self.new.at ≡ self.old.at }
        ensures pace { pace_of beside.new.around ≡ pace_of beside.old.around }
    {
        let value = match beside.around.value_at(event, at) {
            Some(value) => value,
            None => 0,
        };
        beside.code = OK;
        if let Some(target) = target {
            self.set(heads, beside, target, Value::Int(value));
        }
    }

    /// A pause as it begins.
    pub fn hold(
        &mut self,
        alloc: Global,
        heads: &Heads,
        beside: &mut Beside,
        pause: &Pause,
    ) -> Result<Effect, NoMemory>
        ensures { IfOk result (λ effect. Does effect self.old beside.old self.new beside.new
            (begun heads.now (pause_of pause.now) self.old.at self.old.values (beside_of beside.old))) }
    {
        match pause {
            Pause::Cooperate { instants } => Ok(self.cooperate(heads, beside, instants)),
            Pause::Await { events, limit } => {
                self.wait_for(alloc, heads, beside, events.as_slice(), limit)
            }
            Pause::Get {
                event,
                index,
                target,
            } => Ok(self.get(heads, beside, event.event, index, *target)),
            Pause::Join { thread, limit } => Ok(self.join(heads, beside, thread, limit)),
            Pause::Link(scheduler) => Ok(Effect::Leaves(To::Sched(*scheduler))),
            Pause::Unlink => Ok(Effect::Leaves(To::Workers)),
            Pause::Halt => Ok(Effect::Waits(Wait::Halt)),
        }
    }

    /// A wait ends, as its thread goes on. `target` is the variable that the stop sets, where it is a `get`.
    pub fn answer(
        &mut self,
        heads: &Heads,
        beside: &mut Beside,
        wait: &Wait,
        target: Option<Target>,
    )
        ensures answered { (pause : Option resolved.Pause) → target_in pause ≡ option_map target_of target
            → now self.new.values (beside_of beside.new)
            ≡ answered heads.now pause wait.now self.old.values (beside_of beside.old) }
        ensures same_at { self.new.at ≡ self.old.at }
        ensures pace { pace_of beside.new.around ≡ pace_of beside.old.around }
    {
        match wait {
            Wait::New | Wait::Coop(_) | Wait::Halt => {}
            Wait::Events { events, left } => {
                beside.end_events(events.as_slice(), code_after(*left));
            }
            Wait::Index { event, at } => self.take_value(heads, beside, target, *event, *at),
            Wait::Next => beside.code = NEXT,
            Wait::Join { thread: _, left } => beside.code = code_after(*left),
        }
    }
}
