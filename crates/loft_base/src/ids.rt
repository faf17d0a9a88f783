//! Numbers that name what a program declares, names of threads, and values.

/// A scheduler, by its index among the declarations of schedulers, from 0.
#[derive(Clone, Copy, Debug, PartialEq, Eq)]
pub struct SchedId(pub u32);

/// An event, by its index among the declarations of events, from 0.
#[derive(Clone, Copy, Debug, PartialEq, Eq)]
pub struct EventId(pub u32);

/// A shared variable, by its index among the declarations of shared variables, from 0.
#[derive(Clone, Copy, Debug, PartialEq, Eq)]
pub struct SharedId(pub u32);

/// A module, by its index among the declarations of modules, from 0.
#[derive(Clone, Copy, Debug, PartialEq, Eq)]
pub struct ModuleId(pub u32);

/// Who made a thread: the source's own starts, a scheduler (a thread linked to it), or an
/// outside client; the two numbers count schedulers and clients from 0.
#[derive(Clone, Copy, Debug, PartialEq, Eq)]
pub enum Maker {
    Source,
    Sched(u32),
    Client(u32),
}

/// The name of a thread: its maker, and its number among the threads of that maker, from 0 in
/// the order in which they were made.
#[derive(Clone, Copy, Debug, PartialEq, Eq)]
pub struct ThreadId {
    pub maker: Maker,
    pub seq: u64,
}

/// What a variable holds and an expression gives.
#[derive(Clone, Copy, Debug, PartialEq, Eq)]
pub enum Value {
    Int(i64),
    Thread(ThreadId),
}
