//! Declarations outside module bodies, with names in place of numbers.

ghost use Rattle.std.specs.Prelude.{◌≡◌, map};
ghost use Rattle.std.specs.Option.{option_map};
ghost use Rattle.loft_tree.specs.View.{named_of, place_name_of, head_of, argument_of, order_of};
ghost use Rattle.loft_code.specs.Places.{same_place};
ghost use Rattle.loft_listing.specs.Making.{Makes};
ghost use Rattle.loft_listing.specs.Called.{called, called_variable, called_place, called_end, called_head, called_argument, called_order};

use crate::name;
use loft_base::{Room, Value};
use loft_tree::{
    Argument, ClientOrder, Heads, Ident, ModuleHead, Name, OutsideOrder, Place, PlaceName,
    Signature, SlotHead, Variable,
};

/// A parameter or local variable.
pub fn variable(room: &mut Room, slot: &SlotHead) -> Variable
    ensures { Makes room.old room.new (named_of result ≡ called_variable slot.now) }
{
    Variable {
        kind: slot.kind,
        name: name::ident(room, slot.name.as_slice()),
    }
}

/// Parameters.
fn variables(room: &mut Room, slots: &[SlotHead]) -> Vec<Variable>
    ensures { Makes room.old room.new (map named_of result.items ≡ map called_variable slots.now) }
{
    let mut named = Vec::new(room.alloc);
    for slot in slots {
        let next = variable(room, slot);
        room.push_to(&mut named, next);
    }
    named
}

/// A place.
pub fn place(room: &mut Room, heads: &Heads, place: Place) -> PlaceName
    ensures { Makes room.old room.new (place_name_of result ≡ called_place heads.now place) }
{
    match place {
        Place::Sched(scheduler) => {
            let name = name::scheduler(room, heads, scheduler);
            PlaceName::Scheduler(name)
        }
        Place::Unlinked => PlaceName::Unlinked,
    }
}

/// Whether two places are the same.
fn same_place(one: Place, other: Place) -> bool
    ensures { result ≡ same_place one other }
{
    match (one, other) {
        (Place::Sched(one), Place::Sched(other)) => one.0 == other.0,
        (Place::Sched(_), Place::Unlinked) => false,
        (Place::Unlinked, Place::Sched(_)) => false,
        (Place::Unlinked, Place::Unlinked) => true,
    }
}

/// Where threads end, if that isn't where they begin.
fn end_place(room: &mut Room, heads: &Heads, begin: Place, end: Place) -> Option<PlaceName>
    ensures { Makes room.old room.new
        (option_map place_name_of result ≡ called_end heads.now begin end) }
{
    if same_place(begin, end) {
        None
    } else {
        Some(place(room, heads, end))
    }
}

/// The head of a module.
pub fn module_head(room: &mut Room, heads: &Heads, module: &Signature) -> ModuleHead
    ensures { Makes room.old room.new (head_of result ≡ called_head heads.now «module».now) }
{
    ModuleHead {
        name: name::ident(room, module.name.as_slice()),
        parameters: variables(room, module.parameters.as_slice()),
        begin: place(room, heads, module.begin),
        end: end_place(room, heads, module.begin, module.end),
    }
}

/// An argument.
fn argument(room: &mut Room, heads: &Heads, value: Value) -> Argument
    ensures { Makes room.old room.new (argument_of result ≡ called_argument heads.now value) }
{
    match value {
        Value::Int(value) => Argument::Number { at: 0, value },
        Value::Thread(thread) => Argument::Name(name::thread(room, heads, thread)),
    }
}

/// Arguments.
pub fn arguments(room: &mut Room, heads: &Heads, values: &[Value]) -> Vec<Argument>
    ensures { Makes room.old room.new
        (map argument_of result.items ≡ map (called_argument heads.now) values.now) }
{
    let mut named = Vec::new(room.alloc);
    for value in values {
        let next = argument(room, heads, *value);
        room.push_to(&mut named, next);
    }
    named
}

/// What a start names its thread, where it does.
pub fn start_name(room: &mut Room, name: &Option<Name>) -> Option<Ident>
    ensures { Makes room.old room.new (result ≡ option_map called name.now) }
{
    match name {
        Some(name) => Some(name::ident(room, name.as_slice())),
        None => None,
    }
}

/// An order of a client.
pub fn order(room: &mut Room, heads: &Heads, order: &ClientOrder) -> OutsideOrder
    ensures { Makes room.old room.new (order_of result ≡ called_order heads.now order.now) }
{
    match order {
        ClientOrder::Create {
            scheduler,
            module,
            arguments: values,
        } => OutsideOrder::Create {
            scheduler: name::scheduler(room, heads, *scheduler),
            called: name::module(room, heads, *module),
            arguments: arguments(room, heads, values.as_slice()),
        },
        ClientOrder::Control {
            control,
            thread,
            scheduler,
        } => OutsideOrder::Control {
            control: *control,
            thread: name::thread(room, heads, *thread),
            scheduler: name::scheduler(room, heads, *scheduler),
        },
        ClientOrder::Broadcast { event, value } => OutsideOrder::Broadcast {
            event: name::event(room, heads, *event),
            value: *value,
        },
    }
}
