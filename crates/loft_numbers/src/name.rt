//! Names where they are used.

ghost use Rattle.std.specs.Prelude.{◌≡◌, true, [], ◌∷◌, map};
ghost use Rattle.loft_tree.specs.View.{event_name_of};
ghost use Rattle.loft_tree.specs.NamedView as view;
ghost use Rattle.loft_numbers.specs.Numbers.{event_of, event_use, event_uses, holder_of, module_of, number_of, scheduler_of, target_of, variable_term};
ghost use Rattle.loft_scopes.specs.Scopes.{meaning};

use loft_base::{EventId, ModuleId, Room, SchedId, SharedId};
use loft_scopes::{Scope, Sort, Table};
use loft_tree::{EventName, EventUse, Ident, NamedExpr, Target};

/// The number of what a name means.
pub fn number(table: &Table, scope: Scope, name: &Ident) -> u32
    ensures { result ≡ number_of table.now scope name.now }
{
    match table.meaning(scope, name) {
        Some(found) => found.number,
        None => 0,
    }
}

/// The scheduler that a name means.
pub fn scheduler(table: &Table, scope: Scope, name: &Ident) -> SchedId
    ensures { result ≡ scheduler_of table.now scope name.now }
{
    SchedId(number(table, scope, name))
}

/// The event that a name means.
pub fn event(table: &Table, scope: Scope, event: &EventName) -> EventId
    ensures { result ≡ event_of table.now scope (event_name_of event.now) }
{
    EventId(number(table, scope, &event.name))
}

/// The module that a name means.
pub fn module(table: &Table, scope: Scope, name: &Ident) -> ModuleId
    ensures { result ≡ module_of table.now scope name.now }
{
    ModuleId(number(table, scope, name))
}

/// The event that a name means, and the offset of the name.
pub fn event_use(table: &Table, scope: Scope, named: &EventName) -> EventUse
    ensures { view.event_use_of result ≡ event_use table.now scope (event_name_of named.now) }
{
    EventUse {
        at: named.name.at(),
        event: event(table, scope, named),
    }
}

/// The same of one event, as a list.
pub fn one_event(room: &mut Room, table: &Table, scope: Scope, name: &EventName) -> Vec<EventUse>
    ensures before { room.new.is_whole ≡ true → room.old.is_whole ≡ true }
    ensures value { room.new.is_whole ≡ true → map view.event_use_of result.items ≡ event_use table.now scope (event_name_of name.now) ∷ [] }
{
    let mut events = Vec::new(room.alloc);
    room.push_to(&mut events, event_use(table, scope, name));
    events
}

/// The events that names mean, and the offsets of the names.
pub fn event_uses(
    room: &mut Room,
    table: &Table,
    scope: Scope,
    names: &[EventName],
) -> Vec<EventUse>
    ensures before { room.new.is_whole ≡ true → room.old.is_whole ≡ true }
    ensures value { room.new.is_whole ≡ true → map view.event_use_of result.items ≡ event_uses table.now scope (map event_name_of names.now) }
{
    let mut events = Vec::new(room.alloc);
    for name in names {
        room.push_to(&mut events, event_use(table, scope, name));
    }
    events
}

/// The variable that a name means, to be set.
pub fn target(table: &Table, scope: Scope, name: &Ident) -> Target
    ensures { result ≡ target_of table.now scope name.now }
{
    let Some(found) = table.meaning(scope, name) else {
        return Target::Slot(0);
    };
    match found.sort {
        Sort::Shared => Target::Shared {
            at: name.at(),
            shared: SharedId(found.number),
        },
        _ => Target::Slot(found.number),
    }
}

/// The variable that a name means, to be read.
pub fn variable(table: &Table, scope: Scope, name: &Ident) -> NamedExpr
    ensures { view.term_of result
        ≡ variable_term table.now scope name.now.at (holder_of (meaning table.now scope name.now)) }
{
    match target(table, scope, name) {
        Target::Slot(slot) => NamedExpr::Slot(slot),
        Target::Shared { at, shared } => NamedExpr::Shared { at, shared },
    }
}
