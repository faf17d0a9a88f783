//! Programs: what a source text says, and the same with numbers in place of names.
#![tactic(auto)]

mod action;
mod copy;
mod expression;
mod heads;
mod ident;
mod kinds;
pub mod limits;
mod named;
mod program;
mod shared_heads;
mod shared_text;
mod statement;
mod stopping;

pub use action::{Action, Pause};
pub use expression::Expr;
pub use heads::{
    Arguments, Client, ClientOrder, EventHead, HeadItem, Heads, Name, Names, Place, SharedHead,
    Signature, SlotHead, Slots, Start,
};
pub use ident::Ident;
pub use kinds::{BinaryOperator, Builtin, Control, Kind, UnaryOperator};
pub use named::{
    EventUse, LinkItem, Module, Named, NamedCreation, NamedExpr, NamedProgram, NamedStmt, Target,
};
pub use program::{Argument, Item, ModuleHead, OutsideOrder, PlaceName, Program, Variable};
pub use shared_heads::SharedHeads;
pub use shared_text::SharedText;
pub use statement::{Creation, EventName, Stmt, Text};
pub use stopping::stops;
