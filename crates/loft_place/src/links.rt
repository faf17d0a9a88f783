//! Whether the links of what a program declares are correct.

ghost use Rattle.std.specs.Prelude.{◌≡◌, ◌≢◌, map, slice_get, MatchResult};
ghost use Rattle.loft_tree.specs.ProgramView.{module_of};
ghost use Rattle.loft_place.specs.declared.error.PlaceError.TheVariants.{ModuleEnds};
ghost use Rattle.loft_place.specs.Links.{ModuleGoes, ModuleFault, IsAnswer, start_needs, order_needs, order_at, LinkHolds, LinkFault, LinksHold, LinksFault};

use crate::error::PlaceError;
use crate::needs::check_begin;
use crate::walk::walk_body;
use loft_base::ModuleId;
use loft_tree::{ClientOrder, Heads, LinkItem, Module, Place};

/// Whether a module's body ends where the module declares.
fn check_end(at: u32, declared: Place, end: Place) -> Result<(), PlaceError>
    ensures { MatchResult result (λ _. declared ≡ end)
        (λ e. (declared ≢ end) × (e ≡ ModuleEnds at declared end)) }
{
    if declared == end {
        Ok(())
    } else {
        Err(PlaceError::ModuleEnds { at, declared, end })
    }
}

/// Whether the body of a module goes from where its threads begin to where they end.
fn check_module(heads: &Heads, modules: &[Module], module: ModuleId) -> Result<(), PlaceError>
    ensures { MatchResult result
        (λ _. ModuleGoes heads.now (slice_get heads.now.modules «module».0)
        (slice_get (map module_of modules.now) «module».0))
        (ModuleFault heads.now (slice_get heads.now.modules «module».0)
        (slice_get (map module_of modules.now) «module».0)) }
{
    let Some(signature) = heads.modules.as_slice().get(module.0 as usize) else {
        return Ok(());
    };
    let Some(module) = modules.get(module.0 as usize) else {
        return Ok(());
    };
    let end = walk_body(heads, signature.begin, module.body.as_slice())?;
    check_end(module.at, signature.end, end)
}

/// Whether the module of a start begins in its scheduler, whose name stands at this offset.
fn check_start(heads: &Heads, at: u32, start: u32) -> Result<(), PlaceError>
    ensures { IsAnswer (start_needs heads.now at (slice_get heads.now.starts start)) result }
{
    match heads.starts.as_slice().get(start as usize) {
        Some(start) => check_begin(heads, at, start.scheduler, start.module),
        None => Ok(()),
    }
}

/// Whether the module of a create begins in its scheduler, whose name stands at this offset.
fn check_order(heads: &Heads, at: u32, order: &ClientOrder) -> Result<(), PlaceError>
    ensures { IsAnswer (order_needs heads.now at (Some order.now)) result }
{
    match order {
        ClientOrder::Create {
            scheduler,
            module,
            ..
        } => check_begin(heads, at, *scheduler, *module),
        ClientOrder::Control { .. } | ClientOrder::Broadcast { .. } => Ok(()),
    }
}

/// The same of an order by its number and its client's.
fn check_create(heads: &Heads, at: u32, client: u32, number: u32) -> Result<(), PlaceError>
    ensures { IsAnswer
        (order_needs heads.now at (order_at (slice_get heads.now.clients client) number)) result }
{
    let Some(client) = heads.clients.as_slice().get(client as usize) else {
        return Ok(());
    };
    match client.orders.as_slice().get(number as usize) {
        Some(order) => check_order(heads, at, order),
        None => Ok(()),
    }
}

/// Whether what a declaration has to do with links is correct.
fn check_link(heads: &Heads, modules: &[Module], link: LinkItem) -> Result<(), PlaceError>
    ensures { MatchResult result (λ _. LinkHolds heads.now (map module_of modules.now) link)
        (LinkFault heads.now (map module_of modules.now) link) }
{
    match link {
        LinkItem::Module(module) => check_module(heads, modules, module),
        LinkItem::Start { at, start } => check_start(heads, at, start),
        LinkItem::Create { at, client, order } => check_create(heads, at, client, order),
    }
}

/// The same of all declarations, in the order of the text.
pub fn check_links(heads: &Heads, modules: &[Module], links: &[LinkItem]) -> Result<(), PlaceError>
    ensures { MatchResult result (λ _. LinksHold heads.now (map module_of modules.now) links.now)
        (LinksFault heads.now (map module_of modules.now) links.now) }
{
    for link in links {
        check_link(heads, modules, *link)?;
    }
    Ok(())
}
