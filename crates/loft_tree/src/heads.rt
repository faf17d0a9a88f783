//! What a program declares outside module bodies, numbered in text order.

ghost use Rattle.std.specs.Prelude.{◌≡◌, ◌↔◌, IsTrue};
ghost use Rattle.loft_tree.specs.HeadsFit.{is_of, agree, kinds_of, HeadsFit};

use crate::kinds::{Control, Kind};
use crate::shared_heads::SharedHeads;
use loft_base::{EventId, ModuleId, SchedId, Sequence, SharedId, ThreadId, Value};

/// A name: its bytes.
pub type Name = Sequence<u8>;

/// Names, in text order.
pub type Names = Sequence<Name>;

/// Parameters or local variables of a module, in text order.
pub type Slots = Sequence<SlotHead>;

/// Values of parameters, in text order.
pub type Arguments = Sequence<Value>;

/// A declared parameter or local variable: its kind and its name.
#[derive(Drop)]
pub struct SlotHead {
    pub kind: Kind,
    pub name: Name,
}

/// Where a thread is linked.
#[derive(Clone, Copy, Debug, PartialEq, Eq)]
pub enum Place {
    /// It runs in the instants of this scheduler.
    Sched(SchedId),
    /// It runs on its own, beside the schedulers.
    Unlinked,
}

/// A declared event, and the scheduler on whose board it stands.
#[derive(Drop)]
pub struct EventHead {
    pub name: Name,
    pub scheduler: SchedId,
}

/// A declared shared variable: its scheduler, and its value before the first instant.
#[derive(Drop)]
pub struct SharedHead {
    pub name: Name,
    pub scheduler: SchedId,
    pub value: i64,
}

/// A declared module: its name, its parameters and local variables, and the places where its threads begin and end. The
/// slots of its frames are numbered from 0, the parameters first.
#[derive(Drop)]
pub struct Signature {
    pub name: Name,
    pub parameters: Slots,
    pub locals: Slots,
    pub begin: Place,
    pub end: Place,
}

/// A thread that the source starts: its scheduler, its module, the values of the module's parameters, and the name that
/// the source gives it, if it gives one.
#[derive(Drop)]
pub struct Start {
    pub scheduler: SchedId,
    pub module: ModuleId,
    pub arguments: Arguments,
    pub name: Option<Name>,
}

/// What an outside client orders.
#[derive(Drop)]
pub enum ClientOrder {
    /// A new thread in the scheduler.
    Create {
        scheduler: SchedId,
        module: ModuleId,
        arguments: Arguments,
    },
    /// A thread of the scheduler is to be stopped, suspended or resumed.
    Control {
        control: Control,
        thread: ThreadId,
        scheduler: SchedId,
    },
    /// The event is to be present in its scheduler's next instant, with a value or without.
    Broadcast {
        event: EventId,
        value: Option<i64>,
    },
}

/// An outside client: its name, and its orders in text order.
#[derive(Drop)]
pub struct Client {
    pub name: Name,
    pub orders: Sequence<ClientOrder>,
}

/// A declaration of a program, by its sort and its number among those of its sort.
#[derive(Clone, Copy)]
pub enum HeadItem {
    Scheduler(SchedId),
    Event(EventId),
    Shared(SharedId),
    Module(ModuleId),
    /// A start, by its number from 0.
    Start(u32),
    /// An outside client, by its number from 0.
    Client(u32),
}

/// All that a program declares outside module bodies, each sort numbered from 0 in text order, and the order in which
/// the declarations stand in the text.
#[derive(Drop)]
pub struct Heads {
    pub schedulers: Names,
    pub events: Sequence<EventHead>,
    pub shared: SharedHeads,
    pub modules: Sequence<Signature>,
    pub starts: Sequence<Start>,
    pub clients: Sequence<Client>,
    pub items: Sequence<HeadItem>,
}

/// Whether the value is of this kind.
fn is_of(value: &Value, kind: Kind) -> bool
    ensures { result ≡ is_of value.now kind }
{
    match (value, kind) {
        (Value::Int(_), Kind::Int) => true,
        (Value::Int(_), Kind::Thread) => false,
        (Value::Thread(_), Kind::Int) => false,
        (Value::Thread(_), Kind::Thread) => true,
    }
}

/// Whether there are as many values as parameters, each of its parameter's kind.
fn agree(parameters: &[SlotHead], values: &[Value]) -> bool
    ensures { result ≡ agree (kinds_of parameters.now) values.now }
{
    match parameters {
        [] => match values {
            [] => true,
            [_, ..] => false,
        },
        [parameter, parameters @ ..] => match values {
            [] => false,
            [value, values @ ..] => is_of(value, parameter.kind) && agree(parameters, values),
        },
    }
}

impl Heads {
    /// Whether a thread of the module can begin in the scheduler with these arguments: both are declared, the module
    /// begins in the scheduler, and the arguments agree with its parameters in number and kind.
    pub fn fits(&self, scheduler: SchedId, module: ModuleId, args: &[Value]) -> bool
        ensures { IsTrue result ↔ HeadsFit self.now scheduler «module» args.now }
    {
        let is_declared = (scheduler.0 as usize) < self.schedulers.len();
        match self.modules.as_slice().get(module.0 as usize) {
            Some(signature) => {
                is_declared
                    && signature.begin == Place::Sched(scheduler)
                    && agree(signature.parameters.as_slice(), args)
            }
            None => false,
        }
    }
}
