//! Names where they are used.

ghost use Rattle.std.specs.Prelude.{◌≡◌, map};
ghost use Rattle.std.specs.Option.{option_map};
ghost use Rattle.loft_tree.specs.View.{event_name_of, named_of};
ghost use Rattle.loft_scopes.specs.Scopes.{kinds_of, meaning};
ghost use Rattle.loft_scopes.specs.Faults.{event_faults, events_faults, is_start, meant, module_use, scheduler_faults, start_use, target_faults, thread_if, unlike, use_faults, used, value_use};
ghost use Rattle.loft_scopes.specs.FirstFault.{least_of};

use loft_scopes::{NameError, Scope, Sort, Table, note};
use loft_tree::{EventName, Ident, Kind, Variable};

/// A name that has to be a scheduler's.
pub fn scheduler(table: &Table, scope: Scope, name: &Ident, least: &mut Option<NameError>)
    ensures { least.new ≡ least_of least.old (scheduler_faults table.now scope name.now) }
{
    match table.meaning(scope, name) {
        None => note(least, NameError::Unknown(name.at())),
        Some(found) if found.sort.is_scheduler() => {}
        Some(_) => note(least, NameError::Kind(name.at())),
    }
}

/// A name that has to be an event's.
pub fn event(table: &Table, scope: Scope, event: &EventName, least: &mut Option<NameError>)
    ensures { least.new ≡ least_of least.old
        (event_faults table.now scope (event_name_of event.now)) }
{
    let name = &event.name;
    match table.meaning(scope, name) {
        None => note(least, NameError::Unknown(name.at())),
        Some(found) if found.sort.is_event() => {}
        Some(_) => note(least, NameError::Kind(name.at())),
    }
}

/// A name that has to be a start's; it is a thread's, if it is one.
pub fn start(
    table: &Table,
    scope: Scope,
    name: &Ident,
    least: &mut Option<NameError>,
) -> Option<Kind>
    ensures kind { result ≡ meant (used (thread_if is_start) (meaning table.now scope name.now)) }
    ensures faults { least.new ≡ least_of least.old
        (use_faults name.now.at (start_use table.now scope name.now)) }
{
    match table.meaning(scope, name) {
        None => note(least, NameError::Unknown(name.at())),
        Some(found) if found.sort.is_start() => return Some(Kind::Thread),
        Some(_) => note(least, NameError::Kind(name.at())),
    }
    None
}

/// A name that has to be a value's, and its kind, if it is one.
pub fn value(
    table: &Table,
    scope: Scope,
    name: &Ident,
    least: &mut Option<NameError>,
) -> Option<Kind>
    ensures kind { result ≡ meant (value_use table.now scope name.now) }
    ensures faults { least.new ≡ least_of least.old
        (use_faults name.now.at (value_use table.now scope name.now)) }
{
    let Some(found) = table.meaning(scope, name) else {
        note(least, NameError::Unknown(name.at()));
        return None;
    };
    let kind = found.sort.kind();
    if kind.is_none() {
        note(least, NameError::Kind(name.at()));
    }
    kind
}

/// A name that has to be a module's, and its parameters, if it is one.
pub fn module<'a>(
    table: &Table<'a>,
    scope: Scope,
    name: &Ident,
    least: &mut Option<NameError>,
) -> Option<&'a [Variable]>
    ensures parameters { option_map (λ ps. kinds_of (map named_of ps.now)) result
        ≡ meant (module_use table.now scope name.now) }
    ensures faults { least.new ≡ least_of least.old
        (use_faults name.now.at (module_use table.now scope name.now)) }
{
    let Some(found) = table.meaning(scope, name) else {
        note(least, NameError::Unknown(name.at()));
        return None;
    };
    let Sort::Module(parameters) = found.sort else {
        note(least, NameError::Kind(name.at()));
        return None;
    };
    Some(parameters)
}

/// A kind that is known has to be the wanted one, if one is wanted.
pub fn unlike(wanted: Option<Kind>, found: Option<Kind>, at: u32, least: &mut Option<NameError>)
    ensures { least.new ≡ least_of least.old (unlike wanted found at) }
{
    if let (Some(wanted), Some(found)) = (wanted, found) {
        if wanted != found {
            note(least, NameError::Kind(at));
        }
    }
}

/// A name that has to be a value's of this kind.
pub fn target(table: &Table, scope: Scope, kind: Kind, name: &Ident, least: &mut Option<NameError>)
    ensures { least.new ≡ least_of least.old (target_faults table.now scope kind name.now) }
{
    let found = value(table, scope, name, least);
    unlike(Some(kind), found, name.at(), least);
}

/// Names that have to be events'.
pub fn events(table: &Table, scope: Scope, names: &[EventName], least: &mut Option<NameError>)
    ensures { least.new ≡ least_of least.old
        (events_faults table.now scope (map event_name_of names.now)) }
{
    for name in names {
        event(table, scope, name, least);
    }
}
