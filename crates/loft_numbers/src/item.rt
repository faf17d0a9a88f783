//! The declarations of a program in text order, by their numbers.

ghost use Rattle.std.specs.Prelude.{◌≡◌, ◌<◌, ◌^◌, length, IfOk};
ghost use Rattle.loft_tree.specs.View.{declaration_of, source_of};
ghost use Rattle.loft_numbers.specs.Numbers.{item_of, items_in};
ghost use Rattle.loft_scopes.specs.Scopes.{none_yet};

use loft_base::{EventId, ModuleId, NoMemory, SchedId, Sequence, SharedId};
use loft_scopes::DeclarationCounts;
use loft_tree::{HeadItem, Item};
use std::alloc::Global;

/// A declaration by its sort and its number, where there were so many before it.
fn head_item(sofar: DeclarationCounts, item: &Item) -> HeadItem
    ensures { result ≡ item_of sofar (declaration_of item.now) }
{
    match item {
        Item::Scheduler(_) => HeadItem::Scheduler(SchedId(sofar.schedulers)),
        Item::Event { .. } => HeadItem::Event(EventId(sofar.events)),
        Item::Shared { .. } => HeadItem::Shared(SharedId(sofar.shared)),
        Item::Module { .. } => HeadItem::Module(ModuleId(sofar.modules)),
        Item::Start { .. } => HeadItem::Start(sofar.starts),
        Item::Outside { .. } => HeadItem::Client(sofar.clients),
    }
}

/// The declarations in text order, by their sorts and numbers.
pub fn head_items(alloc: Global, items: &[Item]) -> Result<Sequence<HeadItem>, NoMemory>
    requires { length items.now < 2 ^ 32 }
    ensures { IfOk result (λ all. all ≡ items_in none_yet (source_of items.now)) }
{
    let mut all = Sequence::new(alloc);
    let mut sofar = DeclarationCounts::none();
    for item in items {
        all.push(head_item(sofar, item))?;
        sofar = sofar.after(item);
    }
    Ok(all)
}
