//! What has to do with links, in text order.

ghost use Rattle.std.specs.Prelude.{◌≡◌, ◌++◌, ◌<◌, ◌^◌, length, map, IfOk, OnOk};
ghost use Rattle.loft_tree.specs.View.{declaration_of, order_of, source_of};
ghost use Rattle.loft_tree.specs.Fits.{Each, DeclarationFits};
ghost use Rattle.loft_scopes.specs.Scopes.{none_yet};
ghost use Rattle.loft_numbers.specs.Numbers.{creates_in, links_in, links_of};

use loft_base::{ModuleId, NoMemory};
use loft_scopes::DeclarationCounts;
use loft_tree::{Item, LinkItem, OutsideOrder};
use std::alloc::Global;

/// Appends the creates among the orders of the client with this number.
fn put_creates(
    all: &mut Vec<LinkItem>,
    client: u32,
    orders: &[OutsideOrder],
) -> Result<(), NoMemory>
    requires { length orders.now < 2 ^ 32 }
    ensures { OnOk result (all.new.items
        ≡ all.old.items ++ creates_in client 0 (map order_of orders.now)) }
{
    let mut number = 0;
    for order in orders {
        if let OutsideOrder::Create { scheduler, .. } = order {
            all.push(LinkItem::Create {
                at: scheduler.at(),
                client,
                order: number,
            })?;
        }
        number += 1;
    }
    Ok(())
}

/// Appends what a declaration has to do with links, where there were so many before it.
fn put_links(all: &mut Vec<LinkItem>, sofar: DeclarationCounts, item: &Item) -> Result<(), NoMemory>
    requires { DeclarationFits (declaration_of item.now) }
    ensures { OnOk result (all.new.items
        ≡ all.old.items ++ links_of sofar (declaration_of item.now)) }
{
    match item {
        Item::Module { .. } => all.push(LinkItem::Module(ModuleId(sofar.modules)))?,
        Item::Start { scheduler, .. } => all.push(LinkItem::Start {
            at: scheduler.at(),
            start: sofar.starts,
        })?,
        Item::Outside { orders, .. } => put_creates(all, sofar.clients, orders.as_slice())?,
        Item::Scheduler(_) | Item::Event { .. } | Item::Shared { .. } => {}
    }
    Ok(())
}

/// What has to do with links, in text order.
pub fn links(alloc: Global, items: &[Item]) -> Result<Vec<LinkItem>, NoMemory>
    requires few { length items.now < 2 ^ 32 }
    requires fits { Each DeclarationFits (source_of items.now) }
    ensures { IfOk result (λ all. all.items ≡ links_in none_yet (source_of items.now)) }
{
    let mut all = Vec::new(alloc);
    let mut sofar = DeclarationCounts::none();
    for item in items {
        put_links(&mut all, sofar, item)?;
        sofar = sofar.after(item);
    }
    Ok(all)
}
