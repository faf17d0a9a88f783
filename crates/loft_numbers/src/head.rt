//! What a program declares outside module bodies.

ghost use Rattle.std.specs.Prelude.{◌≡◌, ◌<◌, ◌^◌, length, true, IfOk};
ghost use Rattle.loft_tree.specs.View.{source_of};
ghost use Rattle.loft_scopes.specs.Scopes.{none_yet};
ghost use Rattle.loft_numbers.specs.Numbers.{clients_in, events_in, heads_of, items_in, schedulers_in, shared_in, signatures_in, starts_in};

use crate::item::head_items;
use crate::name::{module, scheduler};
use crate::part::{arguments, orders, signature, text, text_if};
use loft_base::{NoMemory, Room, Sequence};
use loft_scopes::{Scope, Table, next_module};
use loft_tree::{
    Client, EventHead, HeadItem, Heads, Item, Names, SharedHead, SharedHeads, Signature, Start,
};
use std::alloc::Global;

/// The names of the schedulers.
fn schedulers(room: &mut Room, items: &[Item]) -> Names
    ensures before { room.new.is_whole ≡ true → room.old.is_whole ≡ true }
    ensures value { room.new.is_whole ≡ true → result ≡ schedulers_in (source_of items.now) }
{
    let mut all = Sequence::new(room.alloc);
    for item in items {
        if let Item::Scheduler(name) = item {
            let name = text(room, name);
            room.push(&mut all, name);
        }
    }
    all
}

/// The events.
fn events(room: &mut Room, table: &Table, items: &[Item]) -> Sequence<EventHead>
    ensures before { room.new.is_whole ≡ true → room.old.is_whole ≡ true }
    ensures value { room.new.is_whole ≡ true → result ≡ events_in table.now (source_of items.now) }
{
    let mut all = Sequence::new(room.alloc);
    for item in items {
        if let Item::Event {
            name,
            scheduler: there,
        } = item
        {
            let head = EventHead {
                name: text(room, name),
                scheduler: scheduler(table, Scope::Everywhere, there),
            };
            room.push(&mut all, head);
        }
    }
    all
}

/// The shared variables as a list.
fn shared_heads(room: &mut Room, table: &Table, items: &[Item]) -> Sequence<SharedHead>
    ensures before { room.new.is_whole ≡ true → room.old.is_whole ≡ true }
    ensures value { room.new.is_whole ≡ true → result ≡ shared_in table.now (source_of items.now) }
{
    let mut all = Sequence::new(room.alloc);
    for item in items {
        if let Item::Shared {
            name,
            scheduler: there,
            value,
        } = item
        {
            let head = SharedHead {
                name: text(room, name),
                scheduler: scheduler(table, Scope::Everywhere, there),
                value: *value,
            };
            room.push(&mut all, head);
        }
    }
    all
}

/// The shared variables.
fn shared(room: &mut Room, table: &Table, items: &[Item]) -> SharedHeads
    ensures before { room.new.is_whole ≡ true → room.old.is_whole ≡ true }
    ensures value { room.new.is_whole ≡ true → result ≡ shared_in table.now (source_of items.now) }
{
    let heads = shared_heads(room, table, items);
    let made = SharedHeads::new(room.alloc, heads);
    let none = SharedHeads::none(room.alloc);
    room.or(made, none)
}

/// The modules, without their bodies.
fn signatures(room: &mut Room, table: &Table, items: &[Item]) -> Sequence<Signature>
    requires { length items.now < 2 ^ 32 }
    ensures before { room.new.is_whole ≡ true → room.old.is_whole ≡ true }
    ensures value { room.new.is_whole ≡ true → result ≡ signatures_in table.now 0 (source_of items.now) }
{
    let mut all = Sequence::new(room.alloc);
    let mut number = 0;
    for item in items {
        if let Item::Module { head, locals, .. } = item {
            let signature = signature(room, table, number, head, locals.as_slice());
            room.push(&mut all, signature);
        }
        number = next_module(number, item);
    }
    all
}

/// The starts.
fn starts(room: &mut Room, table: &Table, items: &[Item]) -> Sequence<Start>
    ensures before { room.new.is_whole ≡ true → room.old.is_whole ≡ true }
    ensures value { room.new.is_whole ≡ true → result ≡ starts_in table.now (source_of items.now) }
{
    let scope = Scope::Everywhere;
    let mut all = Sequence::new(room.alloc);
    for item in items {
        if let Item::Start {
            scheduler: there,
            called,
            arguments: values,
            name,
        } = item
        {
            let start = Start {
                scheduler: scheduler(table, scope, there),
                module: module(table, scope, called),
                arguments: arguments(room, table, scope, values.as_slice()),
                name: text_if(room, name),
            };
            room.push(&mut all, start);
        }
    }
    all
}

/// The outside clients.
fn clients(room: &mut Room, table: &Table, items: &[Item]) -> Sequence<Client>
    ensures before { room.new.is_whole ≡ true → room.old.is_whole ≡ true }
    ensures value { room.new.is_whole ≡ true → result ≡ clients_in table.now (source_of items.now) }
{
    let mut all = Sequence::new(room.alloc);
    for item in items {
        if let Item::Outside {
            name,
            orders: ordered,
        } = item
        {
            let client = Client {
                name: text(room, name),
                orders: orders(room, table, Scope::Everywhere, ordered.as_slice()),
            };
            room.push(&mut all, client);
        }
    }
    all
}

/// The declarations in their order.
fn head_items_of(room: &mut Room, items: &[Item]) -> Sequence<HeadItem>
    requires { length items.now < 2 ^ 32 }
    ensures before { room.new.is_whole ≡ true → room.old.is_whole ≡ true }
    ensures value { room.new.is_whole ≡ true → result ≡ items_in none_yet (source_of items.now) }
{
    let made = head_items(room.alloc, items);
    let none = Sequence::new(room.alloc);
    room.or(made, none)
}

/// All that a program declares outside module bodies, with numbers in place of names
/// (docs/LANGUAGE.md, "Numbers of names").
///
/// # Errors
///
/// Out of memory.
pub fn heads(alloc: Global, table: &Table, items: &[Item]) -> Result<Heads, NoMemory>
    requires { length items.now < 2 ^ 32 }
    ensures { IfOk result (λ heads. heads ≡ heads_of table.now (source_of items.now)) }
{
    let mut room = Room::new(alloc);
    let heads = Heads {
        schedulers: schedulers(&mut room, items),
        events: events(&mut room, table, items),
        shared: shared(&mut room, table, items),
        modules: signatures(&mut room, table, items),
        starts: starts(&mut room, table, items),
        clients: clients(&mut room, table, items),
        items: head_items_of(&mut room, items),
    };
    room.done(heads)
}
