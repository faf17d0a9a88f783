//! Names in operations, each as what it has to be there.

ghost use Rattle.std.specs.Prelude.{◌≡◌, map};
ghost use Rattle.std.specs.List.{list_all};
ghost use Rattle.loft_tree.specs.View.{event_name_of, place_name_of};
ghost use Rattle.loft_listing_names.specs.Named.{names_event, names_module, names_scheduler, names_variable, place_names};

use loft_scopes::{Scope, Sort, Table};
use loft_tree::{EventName, Ident, PlaceName};

/// Whether a name means a scheduler.
pub fn names_scheduler(table: &Table, scope: Scope, name: &Ident) -> bool
    ensures { result ≡ names_scheduler table.now scope name.now }
{
    match table.meaning(scope, name) {
        Some(found) => found.sort.is_scheduler(),
        None => false,
    }
}

/// Whether a name means an event.
pub fn names_event(table: &Table, scope: Scope, event: &EventName) -> bool
    ensures { result ≡ names_event table.now scope (event_name_of event.now) }
{
    match table.meaning(scope, &event.name) {
        Some(found) => found.sort.is_event(),
        None => false,
    }
}

/// Whether names mean events.
pub fn name_events(table: &Table, scope: Scope, events: &[EventName]) -> bool
    ensures { result ≡ list_all (names_event table.now scope) (map event_name_of events.now) }
{
    events.iter().all(|event| names_event(table, scope, event))
}

/// Whether a name means a parameter, a local variable or a shared variable.
pub fn names_variable(table: &Table, scope: Scope, name: &Ident) -> bool
    ensures { result ≡ names_variable table.now scope name.now }
{
    match table.meaning(scope, name) {
        Some(found) => found.sort.kind().is_some(),
        None => false,
    }
}

/// Whether a name means a module.
pub fn names_module(table: &Table, scope: Scope, name: &Ident) -> bool
    ensures { result ≡ names_module table.now scope name.now }
{
    match table.meaning(scope, name) {
        Some(found) => matches!(found.sort, Sort::Module(_)),
        None => false,
    }
}

/// Whether the place of an operation is there.
pub fn place_names(table: &Table, scope: Scope, place: &PlaceName) -> bool
    ensures { result ≡ place_names table.now scope (place_name_of place.now) }
{
    match place {
        PlaceName::Scheduler(name) => names_scheduler(table, scope, name),
        PlaceName::Unlinked => true,
    }
}
