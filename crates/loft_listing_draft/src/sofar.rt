//! What the lines so far say.

ghost use Rattle.std.specs.Prelude.{◌≡◌, ℕ, [], map, IfOk};
ghost use Rattle.loft_tree.specs.Source.{Module, Outside, Done};
ghost use Rattle.loft_tree.specs.View.{declaration_of, head_of, named_of, order_of};
ghost use Rattle.loft_listing_draft.specs.Held.{Holds};
ghost use Rattle.loft_listing_draft.specs.InMemory.{IsInMemory};
ghost use Rattle.loft_listing_draft.specs.Taking as plain;
ghost use Rattle.loft_listing_draft.specs.Taking.{closed};

use crate::closed::Closed;
use crate::draft::{Draft, OperationLine};
use loft_base::{NoMemory, Room};
use loft_tree::{Ident, Item, ModuleHead, OutsideOrder, Variable};
use std::alloc::Global;

/// A module whose `end` hasn't come.
#[derive(Drop)]
pub struct OpenModule {
    pub head: ModuleHead,
    pub locals: Vec<Variable>,
    pub operations: Vec<OperationLine>,
}

/// A client whose `}` hasn't come.
#[derive(Drop)]
pub struct OpenClient {
    pub name: Ident,
    pub orders: Vec<OutsideOrder>,
}

/// The declaration that isn't closed.
#[derive(Drop)]
pub enum Open {
    Nothing,
    Module(OpenModule),
    Client(OpenClient),
}

/// What the lines so far say.
#[derive(Drop)]
pub struct SoFar {
    pub done: Closed,
    pub begun: Open,
}

impl OpenModule {
    /// The module as a declaration, and its operations.
    pub fn close(self, alloc: Global) -> (Item, Vec<OperationLine>)
        ensures item { declaration_of result.0
            ≡ Module (head_of self.head) (map named_of self.locals.items) Done }
        ensures operations { result.1 ≡ self.operations }
    {
        let item = Item::Module {
            head: self.head,
            locals: self.locals,
            body: Vec::new(alloc),
        };
        (item, self.operations)
    }
}

impl OpenClient {
    /// The client as a declaration.
    pub fn close(self) -> Item
        ensures { declaration_of result ≡ Outside self.name (map order_of self.orders.items) }
    {
        Item::Outside {
            name: self.name,
            orders: self.orders,
        }
    }
}

impl SoFar {
    /// The first line of a listing says nothing.
    pub fn new(alloc: Global) -> SoFar
        ensures { (at : ℕ) → Holds result at (record { done = []; begun = plain.Nothing }) }
    {
        SoFar {
            done: Closed::none(alloc),
            begun: Open::Nothing,
        }
    }

    /// What is open is closed.
    pub fn close(self, alloc: Global) -> Result<Draft, NoMemory>
        ensures { (at : ℕ) (s : plain.SoFar) → Holds self at s
            → IfOk result (λ d. IsInMemory d (closed s)) }
    {
        let SoFar { done, begun } = self;
        let mut room = Room::new(alloc);
        match begun {
            Open::Nothing => Ok(done.draft),
            Open::Module(module) => {
                let (item, operations) = module.close(alloc);
                let closed = done.with(&mut room, item, operations);
                room.done(closed.draft)
            }
            Open::Client(client) => {
                let closed = done.with(&mut room, client.close(), Vec::new(alloc));
                room.done(closed.draft)
            }
        }
    }
}
