//! Copies of what a program declares.

ghost use Rattle.std.specs.Prelude.{◌≡◌, true};

use crate::heads::{Client, ClientOrder, EventHead, Heads, SharedHead, Signature, SlotHead, Start};
use crate::shared_heads::SharedHeads;
use loft_base::{NoMemory, Room, Sequence, TryClone};
use std::alloc::Global;

impl TryClone for EventHead {
    fn try_clone(&self, alloc: Global) -> Result<EventHead, NoMemory> {
        Ok(EventHead {
            name: self.name.try_clone(alloc)?,
            scheduler: self.scheduler,
        })
    }
}

impl TryClone for SharedHead {
    fn try_clone(&self, alloc: Global) -> Result<SharedHead, NoMemory> {
        Ok(SharedHead {
            name: self.name.try_clone(alloc)?,
            scheduler: self.scheduler,
            value: self.value,
        })
    }
}

impl TryClone for SlotHead {
    fn try_clone(&self, alloc: Global) -> Result<SlotHead, NoMemory> {
        Ok(SlotHead {
            kind: self.kind,
            name: self.name.try_clone(alloc)?,
        })
    }
}

impl TryClone for Signature {
    fn try_clone(&self, alloc: Global) -> Result<Signature, NoMemory> {
        let mut room = Room::new(alloc);
        let copy = Signature {
            name: room.slice(self.name.as_slice()),
            parameters: room.all(self.parameters.as_slice()),
            locals: room.all(self.locals.as_slice()),
            begin: self.begin,
            end: self.end,
        };
        room.done(copy)
    }
}

impl TryClone for Start {
    fn try_clone(&self, alloc: Global) -> Result<Start, NoMemory> {
        let mut room = Room::new(alloc);
        let copy = Start {
            scheduler: self.scheduler,
            module: self.module,
            arguments: room.slice(self.arguments.as_slice()),
            name: match &self.name {
                Some(name) => Some(room.slice(name.as_slice())),
                None => None,
            },
        };
        room.done(copy)
    }
}

impl TryClone for ClientOrder {
    fn try_clone(&self, alloc: Global) -> Result<ClientOrder, NoMemory> {
        Ok(match self {
            ClientOrder::Create {
                scheduler,
                module,
                arguments,
            } => ClientOrder::Create {
                scheduler: *scheduler,
                module: *module,
                arguments: Sequence::from_slice(alloc, arguments.as_slice())?,
            },
            ClientOrder::Control {
                control,
                thread,
                scheduler,
            } => ClientOrder::Control {
                control: *control,
                thread: *thread,
                scheduler: *scheduler,
            },
            ClientOrder::Broadcast { event, value } => ClientOrder::Broadcast {
                event: *event,
                value: *value,
            },
        })
    }
}

impl TryClone for Client {
    fn try_clone(&self, alloc: Global) -> Result<Client, NoMemory> {
        let mut room = Room::new(alloc);
        let copy = Client {
            name: room.slice(self.name.as_slice()),
            orders: room.all(self.orders.as_slice()),
        };
        room.done(copy)
    }
}

/// Copies of these variables, or none.
fn shared(room: &mut Room, heads: &[SharedHead]) -> SharedHeads
    ensures before { room.new.is_whole ≡ true → room.old.is_whole ≡ true }
    ensures copy { room.new.is_whole ≡ true → result ≡ heads.now }
{
    let heads = room.all(heads);
    let made = SharedHeads::new(room.alloc, heads);
    let none = SharedHeads::none(room.alloc);
    room.or(made, none)
}

impl TryClone for Heads {
    fn try_clone(&self, alloc: Global) -> Result<Heads, NoMemory> {
        let mut room = Room::new(alloc);
        let copy = Heads {
            schedulers: room.all(self.schedulers.as_slice()),
            events: room.all(self.events.as_slice()),
            shared: shared(&mut room, self.shared.as_slice()),
            modules: room.all(self.modules.as_slice()),
            starts: room.all(self.starts.as_slice()),
            clients: room.all(self.clients.as_slice()),
            items: room.slice(self.items.as_slice()),
        };
        room.done(copy)
    }
}
