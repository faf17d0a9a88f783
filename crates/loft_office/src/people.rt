//! The people at the office, each a thread of the host program.

ghost use Rattle.std.specs.Prelude.{◌<◌};
ghost use Rattle.loft_host.specs.Callers.{IsAtWork, GoesOn};

use crate::orders::{Made, broadcast, control, create};
use loft_base::{EventId, ModuleId, NoMemory, Value};
use loft_baton::{Baton, Pass};
use loft_code::Code;
use loft_host::{Caller, Next};
use loft_tree::Control;
use std::alloc::Global;
use std::sync::Wait;

/// The event of a letter, with its weight.
const LETTER: EventId = EventId(0);

/// The event of a minute.
const MINUTE: EventId = EventId(1);

const CLERK: ModuleId = ModuleId(0);

const CLOCK: ModuleId = ModuleId(1);

/// How many letters the clerk weighs.
const LETTERS: i64 = 20;

/// What somebody does.
#[derive(Clone, Copy)]
enum Role {
    /// Makes a clerk and a clock, lets minutes pass, and has the clock suspended, resumed and stopped.
    Manager,
    /// Brings ten letters of the weights 1 to 10.
    Customer,
}

/// Somebody at the office: the role, how many turns were made, and the clock.
#[derive(Drop)]
pub(crate) struct Person {
    role: Role,
    turns: u32,
    clock: Option<Made>,
}

impl Person {
    /// A manager, before the first turn.
    pub(crate) fn manager() -> Person {
        Person {
            role: Role::Manager,
            turns: 0,
            clock: None,
        }
    }

    /// A customer, before the first turn.
    pub(crate) fn customer() -> Person {
        Person {
            role: Role::Customer,
            turns: 0,
            clock: None,
        }
    }
}

/// The clerk and the clock begin. The answer is the clock.
fn open<R: Wait>(
    rt: &R,
    alloc: Global,
    b: &Baton,
    c: &Code,
    p: &mut Pass,
) -> Result<Option<Made>, NoMemory>
    requires at_work { IsAtWork b.now c.now p.old }
    ensures { GoesOn b.now c.now p.old p.new }
{
    create(rt, alloc, b, c, p, CLERK, &[Value::Int(LETTERS)])?;
    create(rt, alloc, b, c, p, CLOCK, &[])
}

/// The clock is suspended, resumed or stopped, where there is one.
fn turn_clock<R: Wait>(
    rt: &R,
    alloc: Global,
    b: &Baton,
    c: &Code,
    p: &mut Pass,
    clock: Option<Made>,
    how: Control,
) -> Result<(), NoMemory>
    requires at_work { IsAtWork b.now c.now p.old }
    ensures { GoesOn b.now c.now p.old p.new }
{
    let Some(clock) = clock else {
        return Ok(());
    };
    if c.heads().schedulers.is_empty() {
        return Ok(());
    }
    control(rt, alloc, b, c, p, how, clock)?;
    Ok(())
}

/// A minute passes.
fn pass_minute<R: Wait>(
    rt: &R,
    alloc: Global,
    b: &Baton,
    c: &Code,
    p: &mut Pass,
) -> Result<(), NoMemory>
    requires at_work { IsAtWork b.now c.now p.old }
    ensures { GoesOn b.now c.now p.old p.new }
{
    if c.heads().events.len() > 1 {
        broadcast(rt, alloc, b, c, p, MINUTE, None)?;
    }
    Ok(())
}

/// A minute passes, after the clock was turned.
fn turn_and_pass<R: Wait>(
    rt: &R,
    alloc: Global,
    b: &Baton,
    c: &Code,
    p: &mut Pass,
    clock: Option<Made>,
    how: Control,
) -> Result<(), NoMemory>
    requires at_work { IsAtWork b.now c.now p.old }
    ensures { GoesOn b.now c.now p.old p.new }
{
    turn_clock(rt, alloc, b, c, p, clock, how)?;
    pass_minute(rt, alloc, b, c, p)
}

/// Ten letters are brought.
fn bring<R: Wait>(rt: &R, alloc: Global, b: &Baton, c: &Code, p: &mut Pass) -> Result<(), NoMemory>
    requires at_work { IsAtWork b.now c.now p.old }
    ensures { GoesOn b.now c.now p.old p.new }
{
    if c.heads().events.is_empty() {
        return Ok(());
    }
    for weight in 1..=10u8 {
        broadcast(rt, alloc, b, c, p, LETTER, Some(i64::from(weight)))?;
    }
    Ok(())
}

impl Person {
    /// One turn of the manager, between any two of which all comes to rest.
    fn manage<R: Wait>(
        &mut self,
        rt: &R,
        alloc: Global,
        b: &Baton,
        c: &Code,
        p: &mut Pass,
    ) -> Result<Next, NoMemory>
        requires at_work { IsAtWork b.now c.now p.old }
        ensures { GoesOn b.now c.now p.old p.new }
    {
        match self.turns {
            0 => self.clock = open(rt, alloc, b, c, p)?,
            1 => pass_minute(rt, alloc, b, c, p)?,
            2 => turn_and_pass(rt, alloc, b, c, p, self.clock, Control::Suspend)?,
            3 => turn_and_pass(rt, alloc, b, c, p, self.clock, Control::Resume)?,
            _ => {
                turn_clock(rt, alloc, b, c, p, self.clock, Control::Stop)?;
                return Ok(Next::Done);
            }
        }
        self.turns = self.turns.saturating_add(1);
        Ok(Next::Rest)
    }

    /// One turn of a customer, who waits until the office is open.
    fn visit<R: Wait>(
        &mut self,
        rt: &R,
        alloc: Global,
        b: &Baton,
        c: &Code,
        p: &mut Pass,
    ) -> Result<Next, NoMemory>
        requires at_work { IsAtWork b.now c.now p.old }
        ensures { GoesOn b.now c.now p.old p.new }
    {
        if self.turns == 0 {
            self.turns = 1;
            return Ok(Next::Rest);
        }
        bring(rt, alloc, b, c, p)?;
        Ok(Next::Done)
    }
}

impl Caller for Person {
    fn turn<R: Wait>(
        &mut self,
        rt: &R,
        alloc: Global,
        b: &Baton,
        c: &Code,
        p: &mut Pass,
    ) -> Result<Next, NoMemory> {
        match self.role {
            Role::Manager => self.manage(rt, alloc, b, c, p),
            Role::Customer => self.visit(rt, alloc, b, c, p),
        }
    }
}
