//! Parts of declarations.

ghost use Rattle.std.specs.Prelude.{◌≡◌, true, map};
ghost use Rattle.loft_tree.specs.View.{argument_of as argument_in, head_of, named_of, order_of, place_name_of};
ghost use Rattle.loft_numbers.specs.Numbers.{argument_of, arguments_of, client_order, client_orders, name_text, place_of, signature_of, slots_of};
ghost use Rattle.loft_tree.specs.Source.{AName};
ghost use Rattle.loft_base.specs.declared.ids.Value.TheVariants.{Thread};

use crate::name::{event, module, number, scheduler};
use loft_base::{Maker, Room, Sequence, ThreadId, Value};
use loft_scopes::{Scope, Table};
use loft_tree::{
    Argument, Arguments, ClientOrder, Ident, ModuleHead, Name, OutsideOrder, Place, PlaceName,
    Signature, SlotHead, Slots, Variable,
};

/// The text of a name.
pub fn text(room: &mut Room, name: &Ident) -> Name
    ensures before { room.new.is_whole ≡ true → room.old.is_whole ≡ true }
    ensures value { room.new.is_whole ≡ true → result ≡ name.now.text }
{
    room.slice(name.text())
}

/// The same, if there is one.
pub fn text_if(room: &mut Room, name: &Option<Ident>) -> Option<Name>
    ensures before { room.new.is_whole ≡ true → room.old.is_whole ≡ true }
    ensures value { room.new.is_whole ≡ true → result ≡ name_text name.now }
{
    match name {
        Some(name) => Some(text(room, name)),
        None => None,
    }
}

/// Parameters or local variables.
fn slots(room: &mut Room, variables: &[Variable]) -> Slots
    ensures before { room.new.is_whole ≡ true → room.old.is_whole ≡ true }
    ensures value { room.new.is_whole ≡ true → result ≡ slots_of (map named_of variables.now) }
{
    let mut all = Sequence::new(room.alloc);
    for variable in variables {
        let name = text(room, &variable.name);
        room.push(
            &mut all,
            SlotHead {
                kind: variable.kind,
                name,
            },
        );
    }
    all
}

/// A place where threads are linked, with a number in place of a name (docs/LANGUAGE.md, "Numbers of
/// names").
pub fn place(table: &Table, scope: Scope, name: &PlaceName) -> Place
    ensures { result ≡ place_of table.now scope (place_name_of name.now) }
{
    match name {
        PlaceName::Scheduler(name) => Place::Sched(scheduler(table, scope, name)),
        PlaceName::Unlinked => Place::Unlinked,
    }
}

/// What the module with this number declares.
pub fn signature(
    room: &mut Room,
    table: &Table,
    number: u32,
    head: &ModuleHead,
    locals: &[Variable],
) -> Signature
    ensures before { room.new.is_whole ≡ true → room.old.is_whole ≡ true }
    ensures value { room.new.is_whole ≡ true → result
        ≡ signature_of table.now number (head_of head.now) (map named_of locals.now) }
{
    let scope = Scope::Within(number);
    Signature {
        name: text(room, &head.name),
        parameters: slots(room, head.parameters.as_slice()),
        locals: slots(room, locals),
        begin: place(table, scope, &head.begin),
        end: match &head.end {
            Some(end) => place(table, scope, end),
            None => place(table, scope, &head.begin),
        },
    }
}

/// The thread that a start names so.
fn thread(table: &Table, scope: Scope, name: &Ident) -> ThreadId
    ensures { Thread result ≡ argument_of table.now scope (AName name.now) }
{
    ThreadId {
        maker: Maker::Source,
        seq: u64::from(number(table, scope, name)),
    }
}

/// The value of an argument.
fn argument(table: &Table, scope: Scope, value: &Argument) -> Value
    ensures { result ≡ argument_of table.now scope (argument_in value.now) }
{
    match value {
        Argument::Number { value, .. } => Value::Int(*value),
        Argument::Name(name) => Value::Thread(thread(table, scope, name)),
    }
}

/// The values of arguments.
pub fn arguments(room: &mut Room, table: &Table, scope: Scope, values: &[Argument]) -> Arguments
    ensures before { room.new.is_whole ≡ true → room.old.is_whole ≡ true }
    ensures value { room.new.is_whole ≡ true → result ≡ arguments_of table.now scope (map argument_in values.now) }
{
    let mut all = Sequence::new(room.alloc);
    for value in values {
        room.push(&mut all, argument(table, scope, value));
    }
    all
}

/// An order.
fn order(room: &mut Room, table: &Table, scope: Scope, ordered: &OutsideOrder) -> ClientOrder
    ensures before { room.new.is_whole ≡ true → room.old.is_whole ≡ true }
    ensures value { room.new.is_whole ≡ true → result ≡ client_order table.now scope (order_of ordered.now) }
{
    match ordered {
        OutsideOrder::Create {
            scheduler: there,
            called,
            arguments: values,
        } => ClientOrder::Create {
            scheduler: scheduler(table, scope, there),
            module: module(table, scope, called),
            arguments: arguments(room, table, scope, values.as_slice()),
        },
        OutsideOrder::Control {
            control,
            thread: name,
            scheduler: there,
        } => ClientOrder::Control {
            control: *control,
            thread: thread(table, scope, name),
            scheduler: scheduler(table, scope, there),
        },
        OutsideOrder::Broadcast { event: name, value } => ClientOrder::Broadcast {
            event: event(table, scope, name),
            value: *value,
        },
    }
}

/// Orders.
pub fn orders(
    room: &mut Room,
    table: &Table,
    scope: Scope,
    ordered: &[OutsideOrder],
) -> Sequence<ClientOrder>
    ensures before { room.new.is_whole ≡ true → room.old.is_whole ≡ true }
    ensures value { room.new.is_whole ≡ true → result ≡ client_orders table.now scope (map order_of ordered.now) }
{
    let mut all = Sequence::new(room.alloc);
    for one in ordered {
        let order = order(room, table, scope, one);
        room.push(&mut all, order);
    }
    all
}
