//! Threads that are made where they can't begin.

ghost use Rattle.std.specs.Prelude.{◌≡◌, map};
ghost use Rattle.std.specs.List.{flat_map};
ghost use Rattle.loft_tree.specs.View.{declaration_of, head_of, order_of, source_of};
ghost use Rattle.loft_listing_names.specs.Wrong.{begins_in, can_begin, declaration_misplaced, misplaced, module_meant, order_misplaced, same_number, scheduler_meant};
ghost use Rattle.loft_listing_names.specs.Least.{least_of};

use crate::least::note;
use loft_scopes::{Scope, Sort, Table};
use loft_tree::{Ident, Item, ModuleHead, OutsideOrder, PlaceName};

/// The number of the scheduler that a name means.
fn scheduler_meant(table: &Table, scope: Scope, name: &Ident) -> Option<u32>
    ensures { result ≡ scheduler_meant table.now scope name.now }
{
    match table.meaning(scope, name) {
        Some(found) if found.sort.is_scheduler() => Some(found.number),
        _ => None,
    }
}

/// The number of the module that a name means.
fn module_meant(table: &Table, name: &Ident) -> Option<u32>
    ensures { result ≡ module_meant table.now name.now }
{
    let found = table.meaning(Scope::Everywhere, name)?;
    match found.sort {
        Sort::Module(_) => Some(found.number),
        _ => None,
    }
}

/// The number of the scheduler in which a module begins.
fn begins_in(table: &Table, heads: &[&ModuleHead], module: u32) -> Option<u32>
    ensures { result ≡ begins_in table.now (map (λ h. head_of h.now) heads.now) «module» }
{
    let head = heads.get(module as usize)?;
    match &head.begin {
        PlaceName::Scheduler(name) => scheduler_meant(table, Scope::Within(module), name),
        PlaceName::Unlinked => None,
    }
}

/// Whether both numbers are there and the same.
fn same_number(number: Option<u32>, other: Option<u32>) -> bool
    ensures { result ≡ same_number number other }
{
    match (number, other) {
        (Some(number), Some(other)) => number == other,
        _ => false,
    }
}

/// Whether a thread of the module called so can begin in the scheduler.
fn can_begin(table: &Table, heads: &[&ModuleHead], scheduler: &Ident, called: &Ident) -> bool
    ensures { result
        ≡ can_begin table.now (map (λ h. head_of h.now) heads.now) scheduler.now called.now }
{
    let there = scheduler_meant(table, Scope::Everywhere, scheduler);
    let begin = match module_meant(table, called) {
        Some(module) => begins_in(table, heads, module),
        None => None,
    };
    same_number(there, begin)
}

/// Notes the offset of a thread that is made where it can't begin.
fn note_misplaced(
    table: &Table,
    heads: &[&ModuleHead],
    scheduler: &Ident,
    called: &Ident,
    least: &mut Option<u32>,
)
    ensures { least.new ≡ least_of least.old
        (misplaced table.now (map (λ h. head_of h.now) heads.now) scheduler.now called.now) }
{
    if !can_begin(table, heads, scheduler, called) {
        note(least, scheduler.at());
    }
}

/// The same for the orders of a client.
#[tactic(auto, using(crate::proofs::LeastOf::steps))]
fn note_orders(
    table: &Table,
    heads: &[&ModuleHead],
    orders: &[OutsideOrder],
    least: &mut Option<u32>,
)
    ensures { least.new ≡ least_of least.old
        (flat_map (order_misplaced table.now (map (λ h. head_of h.now) heads.now))
        (map order_of orders.now)) }
{
    for order in orders {
        if let OutsideOrder::Create {
            scheduler,
            called,
            ..
        } = order
        {
            note_misplaced(table, heads, scheduler, called, least);
        }
    }
}

/// The same for a declaration.
fn note_item(table: &Table, heads: &[&ModuleHead], item: &Item, least: &mut Option<u32>)
    ensures { least.new ≡ least_of least.old
        (declaration_misplaced table.now (map (λ h. head_of h.now) heads.now)
        (declaration_of item.now)) }
{
    match item {
        Item::Start {
            scheduler,
            called,
            ..
        } => note_misplaced(table, heads, scheduler, called, least),
        Item::Outside { orders, .. } => note_orders(table, heads, orders.as_slice(), least),
        _ => {}
    }
}

/// The same for declarations.
#[tactic(auto, using(crate::proofs::LeastOf::steps))]
pub fn note_items(table: &Table, heads: &[&ModuleHead], items: &[Item], least: &mut Option<u32>)
    ensures { least.new ≡ least_of least.old
        (flat_map (declaration_misplaced table.now (map (λ h. head_of h.now) heads.now))
        (source_of items.now)) }
{
    for item in items {
        note_item(table, heads, item, least);
    }
}
