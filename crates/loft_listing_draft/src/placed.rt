//! Copies whose names have the offset of their line. Each takes its memory from a room, which says at
//! the end whether there was enough.

ghost use Rattle.std.specs.Prelude.{◌≡◌, true, map};
ghost use Rattle.loft_tree.specs.View.{declaration_of, named_of, place_name_of, head_of, argument_of, order_of};
ghost use Rattle.loft_listing_line.specs.RowsFit.{IsOneLineItem};
ghost use Rattle.loft_listing_draft.specs.Lined as plain;

use loft_base::Room;
use loft_tree::{Argument, EventName, Ident, Item, ModuleHead, OutsideOrder, PlaceName, Variable};

/// A name.
pub fn name_at(room: &mut Room, name: &Ident, at: u32) -> Ident
    ensures before { room.new.is_whole ≡ true → room.old.is_whole ≡ true }
    ensures copy { room.new.is_whole ≡ true → result ≡ plain.name_at at name.now }
{
    match Vec::from_slice(room.alloc, name.text()) {
        Ok(text) => Ident::new(text, at),
        Err(_) => {
            room.is_whole = false;
            Ident::new(Vec::new(room.alloc), at)
        }
    }
}

/// A parameter or a local variable.
pub fn variable_at(room: &mut Room, variable: &Variable, at: u32) -> Variable
    ensures before { room.new.is_whole ≡ true → room.old.is_whole ≡ true }
    ensures copy { room.new.is_whole ≡ true → named_of result
        ≡ plain.variable_at at (named_of variable.now) }
{
    Variable {
        kind: variable.kind,
        name: name_at(room, &variable.name, at),
    }
}

fn variables_at(room: &mut Room, variables: &[Variable], at: u32) -> Vec<Variable>
    ensures before { room.new.is_whole ≡ true → room.old.is_whole ≡ true }
    ensures copy { room.new.is_whole ≡ true → map named_of result.items
        ≡ map (plain.variable_at at) (map named_of variables.now) }
{
    let mut copy = Vec::new(room.alloc);
    for variable in variables {
        let variable = variable_at(room, variable, at);
        room.push_to(&mut copy, variable);
    }
    copy
}

fn place_at(room: &mut Room, place: &PlaceName, at: u32) -> PlaceName
    ensures before { room.new.is_whole ≡ true → room.old.is_whole ≡ true }
    ensures copy { room.new.is_whole ≡ true → place_name_of result
        ≡ plain.place_at at (place_name_of place.now) }
{
    match place {
        PlaceName::Scheduler(name) => PlaceName::Scheduler(name_at(room, name, at)),
        PlaceName::Unlinked => PlaceName::Unlinked,
    }
}

/// The head of a module.
pub fn head_at(room: &mut Room, head: &ModuleHead, at: u32) -> ModuleHead
    ensures before { room.new.is_whole ≡ true → room.old.is_whole ≡ true }
    ensures copy { room.new.is_whole ≡ true → head_of result
        ≡ plain.head_at at (head_of head.now) }
{
    ModuleHead {
        name: name_at(room, &head.name, at),
        parameters: variables_at(room, head.parameters.as_slice(), at),
        begin: place_at(room, &head.begin, at),
        end: match &head.end {
            Some(place) => Some(place_at(room, place, at)),
            None => None,
        },
    }
}

fn argument_at(room: &mut Room, argument: &Argument, at: u32) -> Argument
    ensures before { room.new.is_whole ≡ true → room.old.is_whole ≡ true }
    ensures copy { room.new.is_whole ≡ true → argument_of result
        ≡ plain.argument_at at (argument_of argument.now) }
{
    match argument {
        Argument::Number { value, .. } => Argument::Number { at, value: *value },
        Argument::Name(name) => Argument::Name(name_at(room, name, at)),
    }
}

fn arguments_at(room: &mut Room, arguments: &[Argument], at: u32) -> Vec<Argument>
    ensures before { room.new.is_whole ≡ true → room.old.is_whole ≡ true }
    ensures copy { room.new.is_whole ≡ true → map argument_of result.items
        ≡ map (plain.argument_at at) (map argument_of arguments.now) }
{
    let mut copy = Vec::new(room.alloc);
    for argument in arguments {
        let argument = argument_at(room, argument, at);
        room.push_to(&mut copy, argument);
    }
    copy
}

/// An order of a client.
pub fn order_at(room: &mut Room, order: &OutsideOrder, at: u32) -> OutsideOrder
    ensures before { room.new.is_whole ≡ true → room.old.is_whole ≡ true }
    ensures copy { room.new.is_whole ≡ true → order_of result
        ≡ plain.order_at at (order_of order.now) }
{
    match order {
        OutsideOrder::Create {
            scheduler,
            called,
            arguments,
        } => OutsideOrder::Create {
            scheduler: name_at(room, scheduler, at),
            called: name_at(room, called, at),
            arguments: arguments_at(room, arguments.as_slice(), at),
        },
        OutsideOrder::Control {
            control,
            thread,
            scheduler,
        } => OutsideOrder::Control {
            control: *control,
            thread: name_at(room, thread, at),
            scheduler: name_at(room, scheduler, at),
        },
        OutsideOrder::Broadcast { event, value } => OutsideOrder::Broadcast {
            event: EventName {
                name: name_at(room, &event.name, at),
            },
            value: *value,
        },
    }
}

/// A declaration of one line; of another one its first line.
pub fn item_at(room: &mut Room, item: &Item, at: u32) -> Item
    ensures before { room.new.is_whole ≡ true → room.old.is_whole ≡ true }
    ensures copy { IsOneLineItem (declaration_of item.now) → room.new.is_whole ≡ true
        → declaration_of result ≡ plain.item_at at (declaration_of item.now) }
{
    match item {
        Item::Scheduler(name) => Item::Scheduler(name_at(room, name, at)),
        Item::Event { name, scheduler } => Item::Event {
            name: name_at(room, name, at),
            scheduler: name_at(room, scheduler, at),
        },
        Item::Shared {
            name,
            scheduler,
            value,
        } => Item::Shared {
            name: name_at(room, name, at),
            scheduler: name_at(room, scheduler, at),
            value: *value,
        },
        Item::Module { head, .. } => Item::Module {
            head: head_at(room, head, at),
            locals: Vec::new(room.alloc),
            body: Vec::new(room.alloc),
        },
        Item::Start {
            scheduler,
            called,
            arguments,
            name,
        } => Item::Start {
            scheduler: name_at(room, scheduler, at),
            called: name_at(room, called, at),
            arguments: arguments_at(room, arguments.as_slice(), at),
            name: match name {
                Some(name) => Some(name_at(room, name, at)),
                None => None,
            },
        },
        Item::Outside { name, .. } => Item::Outside {
            name: name_at(room, name, at),
            orders: Vec::new(room.alloc),
        },
    }
}
