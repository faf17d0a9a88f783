//! Taking a line of a listing.

ghost use Rattle.std.specs.Prelude.{◌≡◌, ◌<◌, ◌↔◌, true, length, IsTrue};
ghost use Rattle.loft_tree.specs.View.{declaration_of, head_of, named_of, order_of};
ghost use Rattle.loft_listing_line.specs.Rows as rows;
ghost use Rattle.loft_listing_line.specs.RowView.{deed_of, row_of, operation_of};
ghost use Rattle.loft_listing_line.specs.RowsFit.{InstructionFits, IsOneLineItem, ListingLineFits};
ghost use Rattle.loft_listing_draft.specs.Held.{IsNoOperation, Takes, TakesIn};
ghost use Rattle.loft_listing_draft.specs.Lined as placed;
ghost use Rattle.loft_listing_draft.specs.Lined.{line_at};

use crate::closed::Closed;
use crate::draft::OperationLine;
use crate::placed::{head_at, item_at, name_at, order_at, variable_at};
use crate::sofar::{Open, OpenClient, OpenModule, SoFar};
use loft_base::Room;
use loft_code::MAX_OPERATIONS;
use loft_listing_line::{OperationRow, Row};
use loft_tree::limits::{MAX_CLIENTS, MAX_LOCALS, MAX_MODULES, MAX_ORDERS};
use loft_tree::{Ident, Item, ModuleHead, OutsideOrder, Variable};

/// What comes of a line.
#[derive(Drop)]
pub enum Taken {
    /// What the lines say with this one.
    More(SoFar),
    /// The line may not stand here: what the lines before it say.
    Stop(SoFar),
}

/// With one line more.
fn more(done: Closed, begun: Open) -> Taken
    ensures { result ≡ Taken.More (record { done = done; begun = begun }) }
{
    Taken::More(SoFar { done, begun })
}

/// As it was.
fn stop(done: Closed, begun: Open) -> Taken
    ensures { result ≡ Taken.Stop (record { done = done; begun = begun }) }
{
    Taken::Stop(SoFar { done, begun })
}

impl Closed {
    /// A declaration of one line.
    fn take_item(self, room: &mut Room, item: &Item, at: u32) -> Taken
        requires { IsOneLineItem (declaration_of item.now) }
        ensures before { room.new.is_whole ≡ true → room.old.is_whole ≡ true }
        ensures taken { room.new.is_whole ≡ true → TakesIn self Open.Nothing at
            (rows.Item (placed.item_at at (declaration_of item.now))) result }
    {
        if self.counts.has_room(item) {
            let item = item_at(room, item, at);
            more(self.with(room, item, Vec::new(room.alloc)), Open::Nothing)
        } else {
            stop(self, Open::Nothing)
        }
    }

    /// The head of a module.
    fn take_head(self, room: &mut Room, head: &ModuleHead, at: u32) -> Taken
        ensures before { room.new.is_whole ≡ true → room.old.is_whole ≡ true }
        ensures taken { room.new.is_whole ≡ true → TakesIn self Open.Nothing at
            (rows.Head (placed.head_at at (head_of head.now))) result }
    {
        if self.counts.modules < MAX_MODULES {
            let module = OpenModule {
                head: head_at(room, head, at),
                locals: Vec::new(room.alloc),
                operations: Vec::new(room.alloc),
            };
            more(self, Open::Module(module))
        } else {
            stop(self, Open::Nothing)
        }
    }

    /// The first line of a client.
    fn take_client(self, room: &mut Room, name: &Ident, at: u32) -> Taken
        ensures before { room.new.is_whole ≡ true → room.old.is_whole ≡ true }
        ensures taken { room.new.is_whole ≡ true → TakesIn self Open.Nothing at
            (rows.Client (placed.name_at at name.now)) result }
    {
        if self.counts.clients < MAX_CLIENTS {
            let client = OpenClient {
                name: name_at(room, name, at),
                orders: Vec::new(room.alloc),
            };
            more(self, Open::Client(client))
        } else {
            stop(self, Open::Nothing)
        }
    }

    /// A line where nothing is open.
    fn take(self, room: &mut Room, row: &Row, at: u32) -> Taken
        requires { ListingLineFits (row_of row.now) }
        ensures before { room.new.is_whole ≡ true → room.old.is_whole ≡ true }
        ensures taken { room.new.is_whole ≡ true
            → TakesIn self Open.Nothing at (line_at at (row_of row.now)) result }
    {
        match row {
            Row::Item(item) => self.take_item(room, item, at),
            Row::Head(head) => self.take_head(room, head, at),
            Row::Client(name) => self.take_client(room, name, at),
            _ => stop(self, Open::Nothing),
        }
    }
}

impl OpenModule {
    /// A local variable.
    fn take_local(self, room: &mut Room, done: Closed, local: &Variable, at: u32) -> Taken
        ensures before { room.new.is_whole ≡ true → room.old.is_whole ≡ true }
        ensures taken { room.new.is_whole ≡ true → TakesIn done (Open.Module self) at
            (rows.Local (placed.variable_at at (named_of local.now))) result }
    {
        if self.operations.is_empty() && self.locals.len() < MAX_LOCALS {
            let mut locals = self.locals;
            let local = variable_at(room, local, at);
            room.push_to(&mut locals, local);
            let module = OpenModule {
                head: self.head,
                locals,
                operations: self.operations,
            };
            more(done, Open::Module(module))
        } else {
            stop(done, Open::Module(self))
        }
    }

    /// Whether the operation may stand next.
    fn is_next(&self, operation: &OperationRow) -> bool
        ensures { IsTrue result ↔ (operation.now.number ≡ length self.now.operations.items)
            × (length self.now.operations.items < MAX_OPERATIONS) }
    {
        operation.number == self.operations.len() as u64 && self.operations.len() < MAX_OPERATIONS
    }

    /// An operation.
    fn take_operation(
        self,
        room: &mut Room,
        done: Closed,
        operation: OperationRow,
        at: u32,
    ) -> Taken
        requires { InstructionFits (deed_of operation.deed) }
        ensures before { room.new.is_whole ≡ true → room.old.is_whole ≡ true }
        ensures taken { room.new.is_whole ≡ true → TakesIn done (Open.Module self) at
            (line_at at (operation_of operation)) result }
    {
        if self.is_next(&operation) {
            let mut operations = self.operations;
            room.push_to(&mut operations, OperationLine { at, operation });
            let module = OpenModule {
                head: self.head,
                locals: self.locals,
                operations,
            };
            more(done, Open::Module(module))
        } else {
            drop(operation);
            stop(done, Open::Module(self))
        }
    }

    /// A line in the module that is no operation.
    fn take(self, room: &mut Room, done: Closed, row: &Row, at: u32) -> Taken
        requires { IsNoOperation row.now }
        ensures before { room.new.is_whole ≡ true → room.old.is_whole ≡ true }
        ensures taken { room.new.is_whole ≡ true
            → TakesIn done (Open.Module self) at (line_at at (row_of row.now)) result }
    {
        match row {
            Row::Local(local) => self.take_local(room, done, local, at),
            Row::End => {
                let (item, operations) = self.close(room.alloc);
                more(done.with(room, item, operations), Open::Nothing)
            }
            _ => stop(done, Open::Module(self)),
        }
    }
}

impl OpenClient {
    /// An order.
    fn take_order(self, room: &mut Room, done: Closed, order: &OutsideOrder, at: u32) -> Taken
        ensures before { room.new.is_whole ≡ true → room.old.is_whole ≡ true }
        ensures taken { room.new.is_whole ≡ true → TakesIn done (Open.Client self) at
            (rows.Order (placed.order_at at (order_of order.now))) result }
    {
        if self.orders.len() < MAX_ORDERS {
            let mut orders = self.orders;
            let order = order_at(room, order, at);
            room.push_to(&mut orders, order);
            let client = OpenClient {
                name: self.name,
                orders,
            };
            more(done, Open::Client(client))
        } else {
            stop(done, Open::Client(self))
        }
    }

    /// A line in the client.
    fn take(self, room: &mut Room, done: Closed, row: &Row, at: u32) -> Taken
        ensures before { room.new.is_whole ≡ true → room.old.is_whole ≡ true }
        ensures taken { room.new.is_whole ≡ true
            → TakesIn done (Open.Client self) at (line_at at (row_of row.now)) result }
    {
        match row {
            Row::Order(order) => self.take_order(room, done, order, at),
            Row::Close => more(
                done.with(room, self.close(), Vec::new(room.alloc)),
                Open::Nothing,
            ),
            _ => stop(done, Open::Client(self)),
        }
    }
}

impl SoFar {
    /// An operation.
    fn take_operation(self, room: &mut Room, operation: OperationRow, at: u32) -> Taken
        requires { InstructionFits (deed_of operation.deed) }
        ensures before { room.new.is_whole ≡ true → room.old.is_whole ≡ true }
        ensures taken { room.new.is_whole ≡ true
            → Takes self at (line_at at (operation_of operation)) result }
    {
        let SoFar { done, begun } = self;
        match begun {
            Open::Module(module) => module.take_operation(room, done, operation, at),
            begun => {
                drop(operation);
                stop(done, begun)
            }
        }
    }

    /// A line after the first that is no operation.
    fn take_other(self, room: &mut Room, row: &Row, at: u32) -> Taken
        requires fits { ListingLineFits (row_of row.now) }
        requires other { IsNoOperation row.now }
        ensures before { room.new.is_whole ≡ true → room.old.is_whole ≡ true }
        ensures taken { room.new.is_whole ≡ true
            → Takes self at (line_at at (row_of row.now)) result }
    {
        let SoFar { done, begun } = self;
        match begun {
            Open::Nothing => done.take(room, row, at),
            Open::Module(module) => module.take(room, done, row, at),
            Open::Client(client) => client.take(room, done, row, at),
        }
    }

    /// A line after the first, which stands at this offset.
    pub fn take(self, room: &mut Room, row: Row, at: u32) -> Taken
        requires { ListingLineFits (row_of row) }
        ensures before { room.new.is_whole ≡ true → room.old.is_whole ≡ true }
        ensures taken { room.new.is_whole ≡ true
            → Takes self at (line_at at (row_of row)) result }
    {
        match row {
            Row::Operation(operation) => self.take_operation(room, operation, at),
            other => {
                let taken = self.take_other(room, &other, at);
                drop(other);
                taken
            }
        }
    }
}
