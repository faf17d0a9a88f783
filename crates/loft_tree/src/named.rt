//! A program with numbers in place of names.

ghost use Rattle.std.specs.Prelude.{◌≤◌};
ghost use Rattle.loft_tree.specs.declared.limits.TheConstants.{MAX_STATEMENTS};
ghost use Rattle.loft_tree.specs.NamedView.{statements_of};
ghost use Rattle.loft_tree.specs.Stops.{size};

use crate::action::{Action, Pause};
use crate::heads::Heads;
use crate::kinds::{BinaryOperator, Builtin, UnaryOperator};
use loft_base::{EventId, ModuleId, SchedId, SharedId};
use std::marker::Model;

/// An expression. Parameters and local variables are numbered from 0, the parameters first.
#[derive(Drop)]
pub enum NamedExpr {
    /// A number.
    Number(i64),
    /// A parameter or local variable of the module.
    Slot(u32),
    /// A shared variable, and the offset of its name.
    Shared {
        at: u32,
        shared: SharedId,
    },
    /// `self`, `code` or `mask`.
    Builtin(Builtin),
    /// An operator before its operand.
    Unary {
        operator: UnaryOperator,
        operand: Box<NamedExpr>,
    },
    /// An operator between its operands.
    Binary {
        operator: BinaryOperator,
        left: Box<NamedExpr>,
        right: Box<NamedExpr>,
    },
}

/// A variable that is set: a parameter or local variable by its number, or a shared one with the offset of its name.
#[derive(Clone, Copy)]
pub enum Target {
    Slot(u32),
    Shared { at: u32, shared: SharedId },
}

/// An event that a statement names, and the offset of the name.
#[derive(Clone, Copy)]
pub struct EventUse {
    pub at: u32,
    pub event: EventId,
}

/// A thread to be made in the scheduler, whose name stands at the offset `at`.
#[derive(Drop)]
pub struct NamedCreation {
    pub at: u32,
    pub scheduler: SchedId,
    pub module: ModuleId,
    pub arguments: Vec<NamedExpr>,
}

/// A statement: it does an action, holds at a stop, runs a module, or has bodies. `at` is the offset of its word, or of the
/// variable of an assignment without a `create`. The stops of a module are numbered from 1 in text order.
#[derive(Drop)]
pub enum NamedStmt {
    /// A statement that goes on at the next one at once, or ends its thread.
    Do {
        at: u32,
        action: Action,
    },
    /// A stop but for `run`.
    Hold {
        at: u32,
        stop: u32,
        pause: Pause,
    },
    /// `run m(E, F);`, where the module's name stands at the offset `called`.
    Run {
        at: u32,
        stop: u32,
        called: u32,
        module: ModuleId,
        arguments: Vec<NamedExpr>,
    },
    /// `if (E) then X else Y end`
    If {
        at: u32,
        test: NamedExpr,
        first: Vec<NamedStmt>,
        second: Vec<NamedStmt>,
    },
    /// `while (E) do X end`
    While {
        at: u32,
        test: NamedExpr,
        body: Vec<NamedStmt>,
    },
    /// `repeat (E) do X end`
    Repeat {
        at: u32,
        count: NamedExpr,
        body: Vec<NamedStmt>,
    },
}

/// A module: the offset of its name, and its body of at most 4,096 statements. What else it declares stands in the heads,
/// at its number.
#[derive(Drop)]
pub struct Module {
    pub at: u32,
    pub body: Vec<NamedStmt>,
    ghost few: { size (statements_of body.items) ≤ MAX_STATEMENTS },
}

/// A declaration that has to do with links, by its number. `at` is the offset of its scheduler's name.
#[derive(Clone, Copy)]
pub enum LinkItem {
    /// The module with this number.
    Module(ModuleId),
    /// The start with this number.
    Start { at: u32, start: u32 },
    /// The order with this number of the client with this number, which creates a thread.
    Create { at: u32, client: u32, order: u32 },
}

/// A program with numbers in place of names: what it declares, its modules by their numbers, and its modules, starts and
/// clients' creates in text order.
#[derive(Drop)]
pub struct NamedProgram {
    pub heads: Heads,
    pub modules: Vec<Module>,
    pub links: Vec<LinkItem>,
}

/// A program with numbers in place of names, whose numbers, kinds and sizes are those of the language
/// (docs/LANGUAGE.md, "Numbers of names"): each number is declared, each expression has its kind, the stops of each module
/// are numbered 1, 2, .. in text order, and nothing is past its limit.
#[derive(Drop)]
pub struct Named {
    program: NamedProgram,
}

impl Model for Named {
    ghost use Rattle.loft_tree.specs.declared.named.NamedProgram.{NamedProgram};

    ghost Value = { NamedProgram };

    ghost use Rattle.loft_tree.specs.contracts.named.NamedStmt as statement;
    ghost use Rattle.std.specs.Coded.{codes};

    ghost coded = { Prim.hlevel (codes, statement.the_row.coded) };

    ghost view = { λ n. n.program };

    ghost use Rattle.loft_tree.specs.ProgramView.{program_of};
    ghost use Rattle.loft_tree.specs.NamedFits.{NamedFits};

    ghost invariant = { λ n. NamedFits (program_of n.program) };
}

impl Named {
    ghost use Rattle.std.specs.Prelude.{◌≡◌};
    ghost use Rattle.loft_tree.specs.ProgramView.{program_of};
    ghost use Rattle.loft_tree.specs.NamedFits.{NamedFits};

    /// The program, where its numbers, kinds and sizes are those of the language.
    pub fn new(program: NamedProgram) -> Named
        requires { NamedFits (program_of program) }
        ensures { result ≡ program }
    {
        Named { program }
    }

    /// What the program consists of.
    pub fn program(&self) -> &NamedProgram
        ensures program { result.now ≡ self.now }
        ensures fits { NamedFits (program_of self.now) }
    {
        &self.program
    }
}
