//! Programs and what they declare.

ghost use Rattle.std.specs.Prelude.{◌≡◌};
ghost use Rattle.loft_tree.specs.View.{source_of};
ghost use Rattle.loft_tree.specs.Fits.{SourceFits};

use crate::ident::Ident;
use crate::kinds::{Control, Kind};
use crate::statement::{EventName, Stmt};
use std::marker::Model;

/// A parameter or a local variable of a module.
#[derive(Drop)]
pub struct Variable {
    /// What it can hold.
    pub kind: Kind,
    /// What it is called.
    pub name: Ident,
}

/// Where a thread is linked: in a scheduler, or nowhere.
#[derive(Drop)]
pub enum PlaceName {
    /// The scheduler called so.
    Scheduler(Ident),
    /// `unlinked`
    Unlinked,
}

/// The line of a module up to its local variables.
#[derive(Drop)]
pub struct ModuleHead {
    /// What the module is called.
    pub name: Ident,
    /// Its parameters, at most 8.
    pub parameters: Vec<Variable>,
    /// Where its threads begin.
    pub begin: PlaceName,
    /// Where its threads end, if that isn't where they begin.
    pub end: Option<PlaceName>,
}

/// An argument of a thread that isn't made by a module.
#[derive(Drop)]
pub enum Argument {
    /// A number, with a sign or without; its offset is that of its first byte.
    Number { at: u32, value: i64 },
    /// The thread that a start names so.
    Name(Ident),
}

/// What an outside client orders.
#[derive(Drop)]
pub enum OutsideOrder {
    /// `create SCHEDULER.MODULE(ARGUMENTS);`
    Create {
        scheduler: Ident,
        called: Ident,
        arguments: Vec<Argument>,
    },
    /// `stop THREAD in SCHEDULER;`, `suspend THREAD in SCHEDULER;` or `resume THREAD in SCHEDULER;`
    Control {
        control: Control,
        thread: Ident,
        scheduler: Ident,
    },
    /// `broadcast EVENT;` or `broadcast EVENT, VALUE;`
    Broadcast {
        event: EventName,
        value: Option<i64>,
    },
}

/// A declaration of a program.
#[derive(Drop)]
pub enum Item {
    /// `scheduler NAME;`
    Scheduler(Ident),
    /// `event NAME in SCHEDULER;`
    Event {
        name: Ident,
        scheduler: Ident,
    },
    /// `shared NAME in SCHEDULER = VALUE;`
    Shared {
        name: Ident,
        scheduler: Ident,
        value: i64,
    },
    /// A module: its head, its local variables, at most 32, and the statements of its body.
    Module {
        head: ModuleHead,
        locals: Vec<Variable>,
        body: Vec<Stmt>,
    },
    /// `start SCHEDULER.MODULE(ARGUMENTS);` or `start SCHEDULER.MODULE(ARGUMENTS) as NAME;`
    Start {
        scheduler: Ident,
        called: Ident,
        arguments: Vec<Argument>,
        name: Option<Ident>,
    },
    /// `outside NAME { ORDERS }`
    Outside {
        name: Ident,
        orders: Vec<OutsideOrder>,
    },
}

/// What a source text says: its declarations, in the order of the text.
///
/// Its names, texts, numbers and sizes are those of the language (docs/LANGUAGE.md, "Limits").
#[derive(Drop)]
pub struct Program {
    items: Vec<Item>,
}

impl Model for Program {
    ghost use Rattle.std.specs.Prelude.{List};
    ghost use Rattle.loft_tree.specs.declared.program.Item.{Item};

    ghost Value = { List Item };

    ghost use Rattle.loft_tree.specs.contracts.statement.Stmt as stmt;
    ghost use Rattle.std.specs.Coded.{codes};

    ghost coded = { Prim.hlevel (codes, stmt.the_row.coded) };

    ghost view = { λ p. p.items.items };

    ghost use Rattle.loft_tree.specs.View.{source_of};
    ghost use Rattle.loft_tree.specs.Fits.{SourceFits};

    ghost invariant = { λ p. SourceFits (source_of p.items.items) };
}

impl Program {
    /// The program with these declarations.
    pub fn new(items: Vec<Item>) -> Program
        requires { SourceFits (source_of items.items) }
        ensures { result ≡ items.items }
    {
        Program { items }
    }

    /// The declarations, in the order of the text.
    pub fn items(&self) -> &[Item]
        ensures items { result.now ≡ self.now }
        ensures fits { SourceFits (source_of self.now) }
    {
        self.items.as_slice()
    }
}
