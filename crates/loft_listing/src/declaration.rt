//! The lines of declarations.

ghost use Rattle.std.specs.Prelude.{◌≡◌, ◌∷◌, [], map, slice_get};
ghost use Rattle.loft_code.specs.View.{line_of, lines_of};
ghost use Rattle.loft_listing_line.specs.Rows as rows;
ghost use Rattle.loft_listing.specs.Called.{called_order, called_variable, scheduler_declaration, event_declaration, shared_declaration, start_declaration};
ghost use Rattle.loft_listing.specs.Making.{Adds};
ghost use Rattle.loft_listing.specs.Lines.{client_lines, item_lines, lines_if, module_lines, operations_of};

use crate::operation::put_operations;
use crate::text::Listing;
use crate::{name, outer};
use loft_base::{EventId, ModuleId, SchedId, SharedId};
use loft_code::{CodeLine, ModuleCode};
use loft_listing_line::Row;
use loft_tree::{Client, ClientOrder, HeadItem, Heads, Item, Signature, SlotHead, Start};

/// The scheduler with this number.
fn put_scheduler(listing: &mut Listing, heads: &Heads, scheduler: SchedId)
    ensures { Adds listing.old listing.new
        (lines_if (λ x. rows.Item (scheduler_declaration x) ∷ [])
        (slice_get heads.now.schedulers scheduler.0)) }
{
    let Some(name) = heads.schedulers.as_slice().get(scheduler.0 as usize) else {
        return;
    };
    let name = name::ident(&mut listing.room, name.as_slice());
    listing.put(Row::Item(Item::Scheduler(name)));
}

/// The event with this number.
fn put_event(listing: &mut Listing, heads: &Heads, event: EventId)
    ensures { Adds listing.old listing.new
        (lines_if (λ x. rows.Item (event_declaration heads.now x) ∷ [])
        (slice_get heads.now.events event.0)) }
{
    let Some(head) = heads.events.as_slice().get(event.0 as usize) else {
        return;
    };
    let item = Item::Event {
        name: name::ident(&mut listing.room, head.name.as_slice()),
        scheduler: name::scheduler(&mut listing.room, heads, head.scheduler),
    };
    listing.put(Row::Item(item));
}

/// The shared variable with this number.
fn put_shared(listing: &mut Listing, heads: &Heads, shared: SharedId)
    ensures { Adds listing.old listing.new
        (lines_if (λ x. rows.Item (shared_declaration heads.now x) ∷ [])
        (slice_get heads.now.shared shared.0)) }
{
    let Some(head) = heads.shared.as_slice().get(shared.0 as usize) else {
        return;
    };
    let item = Item::Shared {
        name: name::ident(&mut listing.room, head.name.as_slice()),
        scheduler: name::scheduler(&mut listing.room, heads, head.scheduler),
        value: head.value,
    };
    listing.put(Row::Item(item));
}

/// The local variables of a module.
fn put_locals(listing: &mut Listing, locals: &[SlotHead])
    ensures { Adds listing.old listing.new (map (λ v. rows.Local (called_variable v)) locals.now) }
{
    for local in locals {
        let local = outer::variable(&mut listing.room, local);
        listing.put(Row::Local(local));
    }
}

/// A module with these operations.
fn put_module(listing: &mut Listing, heads: &Heads, module: &Signature, lines: &[CodeLine])
    ensures { Adds listing.old listing.new
        (module_lines heads.now «module».now (map line_of lines.now)) }
{
    let head = outer::module_head(&mut listing.room, heads, module);
    listing.put(Row::Head(head));
    put_locals(listing, module.locals.as_slice());
    put_operations(listing, heads, module, lines);
    listing.put(Row::End);
}

/// The operations of the module with this number.
fn operations_of(modules: &[ModuleCode], module: ModuleId) -> &[CodeLine]
    ensures { map line_of result.now ≡ operations_of (map lines_of modules.now) «module».0 }
{
    match modules.get(module.0 as usize) {
        Some(code) => code.lines.as_slice(),
        None => &[],
    }
}

/// The module with this number.
fn put_code(listing: &mut Listing, heads: &Heads, modules: &[ModuleCode], module: ModuleId)
    ensures { Adds listing.old listing.new
        (lines_if
        (λ x. module_lines heads.now x (operations_of (map lines_of modules.now) «module».0))
        (slice_get heads.now.modules «module».0)) }
{
    let Some(signature) = heads.modules.as_slice().get(module.0 as usize) else {
        return;
    };
    put_module(listing, heads, signature, operations_of(modules, module));
}

/// The start with this number.
fn put_start(listing: &mut Listing, heads: &Heads, number: u32)
    ensures { Adds listing.old listing.new
        (lines_if (λ x. rows.Item (start_declaration heads.now x) ∷ [])
        (slice_get heads.now.starts number)) }
{
    let Some(start) = heads.starts.as_slice().get(number as usize) else {
        return;
    };
    let item = Item::Start {
        scheduler: name::scheduler(&mut listing.room, heads, start.scheduler),
        called: name::module(&mut listing.room, heads, start.module),
        arguments: outer::arguments(&mut listing.room, heads, start.arguments.as_slice()),
        name: outer::start_name(&mut listing.room, &start.name),
    };
    listing.put(Row::Item(item));
}

/// Orders of a client.
fn put_orders(listing: &mut Listing, heads: &Heads, orders: &[ClientOrder])
    ensures { Adds listing.old listing.new
        (map rows.Order (map (called_order heads.now) orders.now)) }
{
    for order in orders {
        let order = outer::order(&mut listing.room, heads, order);
        listing.put(Row::Order(order));
    }
}

/// An outside client.
fn put_client(listing: &mut Listing, heads: &Heads, client: &Client)
    ensures { Adds listing.old listing.new (client_lines heads.now client.now) }
{
    let name = name::ident(&mut listing.room, client.name.as_slice());
    listing.put(Row::Client(name));
    put_orders(listing, heads, client.orders.as_slice());
    listing.put(Row::Close);
}

/// The outside client with this number.
fn put_client_of(listing: &mut Listing, heads: &Heads, number: u32)
    ensures { Adds listing.old listing.new
        (lines_if (client_lines heads.now) (slice_get heads.now.clients number)) }
{
    let Some(client) = heads.clients.as_slice().get(number as usize) else {
        return;
    };
    put_client(listing, heads, client);
}

/// A declaration, a module with its operations.
pub fn put_declaration(listing: &mut Listing, heads: &Heads, modules: &[ModuleCode], item: HeadItem)
    ensures { Adds listing.old listing.new (item_lines heads.now (map lines_of modules.now) item) }
{
    match item {
        HeadItem::Scheduler(scheduler) => put_scheduler(listing, heads, scheduler),
        HeadItem::Event(event) => put_event(listing, heads, event),
        HeadItem::Shared(shared) => put_shared(listing, heads, shared),
        HeadItem::Module(module) => put_code(listing, heads, modules, module),
        HeadItem::Start(number) => put_start(listing, heads, number),
        HeadItem::Client(number) => put_client_of(listing, heads, number),
    }
}
