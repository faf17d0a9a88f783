//! Names in place of numbers.

ghost use Rattle.std.specs.Prelude.{◌≡◌, ℕ, List, map};
ghost use Rattle.loft_tree.specs.View.{event_name_of};
ghost use Rattle.loft_code.specs.View.{events_in};
ghost use Rattle.loft_listing.specs.Making.{Makes};
ghost use Rattle.loft_listing.specs.Called.{called, called_at, start_name, called_scheduler, called_event, called_shared, called_module, called_slot, called_thread};

use loft_base::{EventId, Maker, ModuleId, Room, SchedId, SharedId, ThreadId};
use loft_tree::{
    EventHead, EventName, EventUse, Heads, Ident, Name, SharedHead, Signature, SlotHead, Start,
};

/// What is declared with a name.
trait HasName {
    /// The bytes of its name.
    ghost name_of: { Self → List ℕ };

    /// The bytes of its name.
    fn name(&self) -> &[u8]
        ensures { result.now ≡ name_of self.now };
}

impl HasName for Name {
    ghost name_of = { λ name. name };

    fn name(&self) -> &[u8] {
        self.as_slice()
    }
}

impl HasName for EventHead {
    ghost name_of = { λ head. head.name };

    fn name(&self) -> &[u8] {
        self.name.as_slice()
    }
}

impl HasName for SharedHead {
    ghost name_of = { λ head. head.name };

    fn name(&self) -> &[u8] {
        self.name.as_slice()
    }
}

impl HasName for Signature {
    ghost name_of = { λ head. head.name };

    fn name(&self) -> &[u8] {
        self.name.as_slice()
    }
}

impl HasName for SlotHead {
    ghost name_of = { λ head. head.name };

    fn name(&self) -> &[u8] {
        self.name.as_slice()
    }
}

impl HasName for Start {
    ghost name_of = { start_name };

    fn name(&self) -> &[u8] {
        match &self.name {
            Some(name) => name.as_slice(),
            None => b"",
        }
    }
}

/// The name with these bytes, at the offset 0.
pub fn ident(room: &mut Room, text: &[u8]) -> Ident
    ensures { Makes room.old room.new (result ≡ called text.now) }
{
    Ident::new(room.slice(text).into_vec(), 0)
}

/// The name of the one with this number among these; the empty name where there is none.
fn name_at<T: HasName>(room: &mut Room, declared: &[T], number: usize) -> Ident
    ensures { Makes room.old room.new (result ≡ called_at T.name_of declared.now number) }
{
    match declared.get(number) {
        Some(one) => ident(room, one.name()),
        None => ident(room, b""),
    }
}

/// The name of a scheduler.
pub fn scheduler(room: &mut Room, heads: &Heads, s: SchedId) -> Ident
    ensures { Makes room.old room.new (result ≡ called_scheduler heads.now s) }
{
    name_at(room, heads.schedulers.as_slice(), s.0 as usize)
}

/// The name of an event.
pub fn event(room: &mut Room, heads: &Heads, event: EventId) -> EventName
    ensures { Makes room.old room.new (event_name_of result ≡ called_event heads.now event) }
{
    let name = name_at(room, heads.events.as_slice(), event.0 as usize);
    EventName { name }
}

/// The names of events.
pub fn events(room: &mut Room, heads: &Heads, named: &[EventUse]) -> Vec<EventName>
    ensures { Makes room.old room.new
        (map event_name_of result.items ≡ map (called_event heads.now) (events_in named.now)) }
{
    let mut names = Vec::new(room.alloc);
    for one in named {
        let name = event(room, heads, one.event);
        room.push_to(&mut names, name);
    }
    names
}

/// The name of a shared variable.
pub fn shared(room: &mut Room, heads: &Heads, shared: SharedId) -> Ident
    ensures { Makes room.old room.new (result ≡ called_shared heads.now shared) }
{
    name_at(room, heads.shared.as_slice(), shared.0 as usize)
}

/// The name of a module.
pub fn module(room: &mut Room, heads: &Heads, module: ModuleId) -> Ident
    ensures { Makes room.old room.new (result ≡ called_module heads.now «module») }
{
    name_at(room, heads.modules.as_slice(), module.0 as usize)
}

/// The name of a parameter or local variable of this module.
pub fn slot(room: &mut Room, module: &Signature, slot: u32) -> Ident
    ensures { Makes room.old room.new (result ≡ called_slot «module».now slot) }
{
    let parameters = module.parameters.as_slice();
    let locals = module.locals.as_slice();
    let number = slot as usize;
    if number < parameters.len() {
        name_at(room, parameters, number)
    } else {
        name_at(room, locals, number - parameters.len())
    }
}

/// The name of a thread outside module bodies: the one that a start gives it.
pub fn thread(room: &mut Room, heads: &Heads, thread: ThreadId) -> Ident
    ensures { Makes room.old room.new (result ≡ called_thread heads.now thread) }
{
    match thread.maker {
        Maker::Source => name_at(room, heads.starts.as_slice(), thread.seq as usize),
        Maker::Sched(_) | Maker::Client(_) => ident(room, b""),
    }
}
