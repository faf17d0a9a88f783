//! Declarations.

ghost use Rattle.std.specs.Prelude.{◌≡◌, ◌<◌, ◌^◌, length};
ghost use Rattle.loft_tree.specs.View.{declaration_of, head_of, place_name_of, source_of, statements_of};
ghost use Rattle.loft_scopes.specs.Faults.{declaration_uses, place_faults, module_uses, uses_from};
ghost use Rattle.loft_scopes.specs.FirstFault.{least_of};

use crate::name::scheduler;
use crate::order::{creation, orders};
use crate::statement::body;
use loft_scopes::{NameError, Scope, Table, next_module};
use loft_tree::{Item, ModuleHead, PlaceName, Stmt};

/// A place where threads are linked.
fn place(table: &Table, scope: Scope, name: &PlaceName, least: &mut Option<NameError>)
    ensures { least.new ≡ least_of least.old
        (place_faults table.now scope (place_name_of name.now)) }
{
    if let PlaceName::Scheduler(name) = name {
        scheduler(table, scope, name, least);
    }
}

/// A module.
#[tactic(auto, using(loft_scopes::proofs::First::first_fault))]
fn module(
    table: &Table,
    number: u32,
    head: &ModuleHead,
    statements: &[Stmt],
    least: &mut Option<NameError>,
)
    ensures { least.new ≡ least_of least.old
        (module_uses table.now number (head_of head.now) (statements_of statements.now)) }
{
    let scope = Scope::Within(number);
    place(table, scope, &head.begin, least);
    if let Some(end) = &head.end {
        place(table, scope, end, least);
    }
    body(table, scope, statements, least);
}

/// The uses in a declaration, where the next module has this number.
#[tactic(auto, using(loft_scopes::proofs::First::first_fault))]
fn item(table: &Table, number: u32, declared: &Item, least: &mut Option<NameError>)
    ensures { least.new ≡ least_of least.old
        (declaration_uses table.now number (declaration_of declared.now)) }
{
    match declared {
        Item::Scheduler(_) => {}
        Item::Event {
            scheduler: name,
            ..
        }
        | Item::Shared {
            scheduler: name,
            ..
        } => scheduler(table, Scope::Everywhere, name, least),
        Item::Module { head, body, .. } => module(table, number, head, body.as_slice(), least),
        Item::Start {
            scheduler,
            called,
            arguments,
            ..
        } => creation(
            table,
            Scope::Everywhere,
            scheduler,
            called,
            arguments.as_slice(),
            least,
        ),
        Item::Outside {
            orders: ordered,
            ..
        } => { orders(table, Scope::Everywhere, ordered.as_slice(), least) }
    }
}

/// The uses in declarations.
pub fn note_uses(table: &Table, declared: &[Item], least: &mut Option<NameError>)
    requires { length declared.now < 2 ^ 32 }
    ensures { least.new ≡ least_of least.old (uses_from table.now 0 (source_of declared.now)) }
{
    let mut number = 0;
    for one in declared {
        item(table, number, one, least);
        number = next_module(number, one);
    }
}
