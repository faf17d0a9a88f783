//! What a source has only so many of.

ghost use Rattle.std.specs.Prelude.{◌≡◌, ◌+◌, ◌≤◌, IfSome, None};
ghost use Rattle.loft_grammar.specs.Counts.{most, largest, number, put, none};

use loft_tree::limits::{
    MAX_ARGUMENTS, MAX_CHOICES, MAX_CLIENTS, MAX_EVENTS, MAX_LOCALS, MAX_MODULES, MAX_OPERANDS,
    MAX_ORDERS, MAX_PARAMETERS, MAX_SCHEDULERS, MAX_SHARED, MAX_STARTS, MAX_STATEMENTS,
};

/// What a source has only so many of (docs/LANGUAGE.md, "Limits").
#[derive(Clone, Copy)]
pub enum Counted {
    /// The schedulers of a program.
    Scheduler,
    /// The events of a program.
    Event,
    /// The shared variables of a program.
    Shared,
    /// The modules of a program.
    Module,
    /// The starts of a program.
    Start,
    /// The outside clients of a program.
    Client,
    /// The orders of a client.
    Order,
    /// The parameters of a module.
    Parameter,
    /// The local variables of a module.
    Local,
    /// The statements of a module, also those in the bodies of others.
    Statement,
    /// The operands of an expression.
    Operand,
    /// The arguments of a call.
    Argument,
    /// The events of a `select`.
    Choice,
}

/// How many of each there were so far. What isn't always limited is counted in 32 bits, which no text of
/// less than 4 GiB passes.
#[derive(Clone, Copy)]
pub struct Counts {
    pub schedulers: u16,
    pub events: u16,
    pub shared: u16,
    pub modules: u16,
    pub starts: u16,
    pub clients: u16,
    pub orders: u16,
    pub parameters: u16,
    pub locals: u16,
    pub statements: u32,
    pub operands: u16,
    pub arguments: u32,
    pub choices: u32,
}

impl Counted {
    /// How many there may be (docs/LANGUAGE.md, "Limits").
    pub fn most(self) -> u32
        ensures { result ≡ most self }
    {
        match self {
            Counted::Scheduler => MAX_SCHEDULERS as u32,
            Counted::Event => MAX_EVENTS as u32,
            Counted::Shared => MAX_SHARED as u32,
            Counted::Module => MAX_MODULES as u32,
            Counted::Start => MAX_STARTS as u32,
            Counted::Client => MAX_CLIENTS as u32,
            Counted::Order => MAX_ORDERS as u32,
            Counted::Parameter => MAX_PARAMETERS as u32,
            Counted::Local => MAX_LOCALS as u32,
            Counted::Statement => MAX_STATEMENTS as u32,
            Counted::Operand => MAX_OPERANDS as u32,
            Counted::Argument => MAX_ARGUMENTS as u32,
            Counted::Choice => MAX_CHOICES as u32,
        }
    }

    /// The largest number of them that can be counted.
    fn largest(self) -> u32
        ensures { result ≡ largest self }
    {
        match self {
            Counted::Statement | Counted::Argument | Counted::Choice => u32::MAX,
            _ => u32::from(u16::MAX),
        }
    }
}

impl Counts {
    /// Nothing is counted yet.
    pub fn none() -> Counts
        ensures { result ≡ none }
    {
        Counts {
            schedulers: 0,
            events: 0,
            shared: 0,
            modules: 0,
            starts: 0,
            clients: 0,
            orders: 0,
            parameters: 0,
            locals: 0,
            statements: 0,
            operands: 0,
            arguments: 0,
            choices: 0,
        }
    }

    /// How many of these there were.
    pub fn number(self, what: Counted) -> u32
        ensures { result ≡ number what self }
    {
        match what {
            Counted::Scheduler => u32::from(self.schedulers),
            Counted::Event => u32::from(self.events),
            Counted::Shared => u32::from(self.shared),
            Counted::Module => u32::from(self.modules),
            Counted::Start => u32::from(self.starts),
            Counted::Client => u32::from(self.clients),
            Counted::Order => u32::from(self.orders),
            Counted::Parameter => u32::from(self.parameters),
            Counted::Local => u32::from(self.locals),
            Counted::Statement => self.statements,
            Counted::Operand => u32::from(self.operands),
            Counted::Argument => self.arguments,
            Counted::Choice => self.choices,
        }
    }

    /// The same, with none of these.
    pub fn without(self, what: Counted) -> Counts
        ensures { result ≡ put what 0 self }
    {
        let mut counts = self;
        match what {
            Counted::Scheduler => counts.schedulers = 0,
            Counted::Event => counts.events = 0,
            Counted::Shared => counts.shared = 0,
            Counted::Module => counts.modules = 0,
            Counted::Start => counts.starts = 0,
            Counted::Client => counts.clients = 0,
            Counted::Order => counts.orders = 0,
            Counted::Parameter => counts.parameters = 0,
            Counted::Local => counts.locals = 0,
            Counted::Statement => counts.statements = 0,
            Counted::Operand => counts.operands = 0,
            Counted::Argument => counts.arguments = 0,
            Counted::Choice => counts.choices = 0,
        }
        counts
    }

    /// The same with one more of these, if so many can be counted.
    pub fn one_more(self, what: Counted) -> Option<Counts>
        ensures more { IfSome result (λ more. more ≡ put what (number what self + 1) self) }
        ensures full { result ≡ None → largest what ≤ number what self }
    {
        if self.number(what) >= what.largest() {
            return None;
        }
        let mut counts = self;
        match what {
            Counted::Scheduler => counts.schedulers += 1,
            Counted::Event => counts.events += 1,
            Counted::Shared => counts.shared += 1,
            Counted::Module => counts.modules += 1,
            Counted::Start => counts.starts += 1,
            Counted::Client => counts.clients += 1,
            Counted::Order => counts.orders += 1,
            Counted::Parameter => counts.parameters += 1,
            Counted::Local => counts.locals += 1,
            Counted::Statement => counts.statements += 1,
            Counted::Operand => counts.operands += 1,
            Counted::Argument => counts.arguments += 1,
            Counted::Choice => counts.choices += 1,
        }
        Some(counts)
    }
}
