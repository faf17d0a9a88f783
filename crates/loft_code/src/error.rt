//! Why code is refused.

use loft_base::ModuleId;

/// An operation: its module, and its number in it, from 0.
#[derive(Clone, Copy, Debug, PartialEq, Eq)]
pub struct OpAt {
    pub module: ModuleId,
    pub op: u32,
}

/// Why code is refused, and at which operation (docs/CODE.md, "Valid code").
#[derive(Clone, Copy, Debug, PartialEq, Eq)]
pub enum CodeError {
    /// It goes to an operation that isn't there, or back to one where it may not; or it is the last of its module and
    /// goes on; or it is operation 0 of a module that has none.
    JumpOut(OpAt),
    /// A number of a scheduler, an event, a shared variable, a module or a slot isn't declared; or it waits for no event,
    /// or for more than 8.
    BadName(OpAt),
    /// The number of its stop isn't the next one of its module.
    BadStop(OpAt),
    /// A thread that is linked at its place may not do it; or its module begins or ends elsewhere; or an operation at
    /// which it goes on has another place than the one where it leaves the thread.
    BadPlace(OpAt),
    /// Counts are active where its module begins or ends; or an operation at which it goes on has another depth than the
    /// one that it leaves; or it is a `turn` without a count; or more than 32 counts are active.
    BadCount(OpAt),
    /// An operand has the wrong kind, or arguments don't agree with the module's parameters.
    KindMismatch(OpAt),
    /// Out of memory. `validate` takes no memory, and never answers this.
    NoMemory,
}
