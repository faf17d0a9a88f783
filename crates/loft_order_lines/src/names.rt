//! What names mean.

ghost use Rattle.std.specs.Prelude.{◌≡◌, ◌==◌, ◌<◌, length, Some, IfSome};
ghost use Rattle.std.specs.List.{position_from};
ghost use Rattle.std.specs.Str.{bytes_eq};
ghost use Rattle.loft_base.specs.declared.ids.Maker.{Maker};
ghost use Rattle.loft_base.specs.declared.ids.Maker.TheVariants as maker;
ghost use Rattle.loft_base.specs.declared.ids.EventId.{EventId};
ghost use Rattle.loft_base.specs.declared.ids.ModuleId.{ModuleId};
ghost use Rattle.loft_orders.specs.Text.{maker_name, module_name, event_name};
ghost use Rattle.loft_order_lines.specs.Texts.{OwnNames, MakerHasText, ModuleHasText, EventHasText};

use loft_base::{EventId, Maker, ModuleId};
use loft_tree::Heads;

/// The index of the first scheduler of this name.
fn scheduler_index(heads: &Heads, name: &[u8]) -> Option<usize>
    ensures within { IfSome result (λ k. k < length heads.now.schedulers) }
    ensures first { result ≡ position_from (λ other. bytes_eq other name.now) 0 heads.now.schedulers }
{
    let schedulers = heads.schedulers.as_slice();
    schedulers.iter().position(|other| other.as_slice() == name)
}

/// The index of the first client of this name.
fn client_index(heads: &Heads, name: &[u8]) -> Option<usize>
    ensures within { IfSome result (λ k. k < length heads.now.clients) }
    ensures first { result
        ≡ position_from (λ other. bytes_eq other.name name.now) 0 heads.now.clients }
{
    let clients = heads.clients.as_slice();
    clients
        .iter()
        .position(|other| other.name.as_slice() == name)
}

/// The index of the first module of this name.
fn module_index(heads: &Heads, name: &[u8]) -> Option<usize>
    ensures within { IfSome result (λ k. k < length heads.now.modules) }
    ensures first { result
        ≡ position_from (λ other. bytes_eq other.name name.now) 0 heads.now.modules }
{
    let modules = heads.modules.as_slice();
    modules
        .iter()
        .position(|other| other.name.as_slice() == name)
}

/// The index of the first event of this name.
fn event_index(heads: &Heads, name: &[u8]) -> Option<usize>
    ensures within { IfSome result (λ k. k < length heads.now.events) }
    ensures first { result
        ≡ position_from (λ other. bytes_eq other.name name.now) 0 heads.now.events }
{
    let events = heads.events.as_slice();
    events
        .iter()
        .position(|other| other.name.as_slice() == name)
}

/// The module of this name, if one has it.
pub fn module_named(heads: &Heads, name: &[u8]) -> Option<ModuleId>
    requires { OwnNames heads.now }
    ensures text { IfSome result (ModuleHasText heads.now) }
    ensures read { (m : ModuleId) → ModuleHasText heads.now m → name.now ≡ module_name heads.now m
        → result ≡ Some m }
{
    let index = module_index(heads, name)?;
    Some(ModuleId(index as u32))
}

/// The event of this name, if one has it.
pub fn event_named(heads: &Heads, name: &[u8]) -> Option<EventId>
    requires { OwnNames heads.now }
    ensures text { IfSome result (EventHasText heads.now) }
    ensures read { (e : EventId) → EventHasText heads.now e → name.now ≡ event_name heads.now e
        → result ≡ Some e }
{
    let index = event_index(heads, name)?;
    Some(EventId(index as u32))
}

/// The scheduler or the client of this name, if one has it.
fn declared_maker(heads: &Heads, name: &[u8]) -> Option<Maker>
    requires { OwnNames heads.now }
    ensures text { IfSome result (MakerHasText heads.now) }
    ensures read { (m : Maker) → MakerHasText heads.now m → (m ≡ maker.Source → ⊥)
        → name.now ≡ maker_name heads.now m → result ≡ Some m }
{
    match scheduler_index(heads, name) {
        Some(scheduler) => Some(Maker::Sched(scheduler as u32)),
        None => {
            let client = client_index(heads, name)?;
            Some(Maker::Client(client as u32))
        }
    }
}

/// The maker of threads whose ids begin so, if they begin so for one.
pub fn maker_named(heads: &Heads, name: &[u8]) -> Option<Maker>
    requires { OwnNames heads.now }
    ensures text { IfSome result (MakerHasText heads.now) }
    ensures read { (m : Maker) → MakerHasText heads.now m → name.now ≡ maker_name heads.now m
        → result ≡ Some m }
{
    if name == b"start".as_slice() {
        Some(Maker::Source)
    } else {
        declared_maker(heads, name)
    }
}
