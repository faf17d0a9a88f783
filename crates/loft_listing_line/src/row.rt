//! What a line of a listing says.

use loft_tree::{Expr, Ident, Item, ModuleHead, OutsideOrder, PlaceName, Stmt, Variable};

/// What a line of a listing says, with names as they are written (docs/CODE.md, "Lines of a listing").
///
/// The offsets in it mean nothing.
#[derive(Drop)]
pub enum Row {
    /// `loft-listing 1`
    Title,
    /// A declaration of one line: of a scheduler, an event, a shared variable or a start.
    Item(Item),
    /// The head of a module.
    Head(ModuleHead),
    /// `local KIND NAME;`
    Local(Variable),
    /// An operation.
    Operation(OperationRow),
    /// `end`, after the operations of a module.
    End,
    /// `outside NAME {`
    Client(Ident),
    /// An order of an outside client.
    Order(OutsideOrder),
    /// `}`, after the orders of a client.
    Close,
}

/// The line of an operation. Its numbers are at most 9223372036854775807.
#[derive(Drop)]
pub struct OperationRow {
    /// Its number in its module, from 0.
    pub number: u64,
    /// Where the thread is linked as it begins.
    pub place: PlaceName,
    /// How many counts of `repeat`s are active then.
    pub depth: u64,
    /// What it does.
    pub deed: Deed,
}

/// What an operation does. Its numbers are at most 9223372036854775807.
#[derive(Drop)]
pub enum Deed {
    /// A statement that is no stop, no `if` and no loop.
    Do(Stmt),
    /// `@NUMBER` and a stop.
    Stop { number: u64, statement: Stmt },
    /// `branch TARGET TEST`
    Branch { target: u64, test: Expr },
    /// `enter`
    Enter,
    /// `count E`
    Count(Expr),
    /// `turn TARGET`
    Turn { target: u64 },
    /// `jump TARGET`
    Jump { target: u64 },
    /// `end`
    End,
}
