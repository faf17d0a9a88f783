//! The limits of the language (docs/LANGUAGE.md, "Limits"): the most that a program may have of each.

/// Schedulers of a program.
pub const MAX_SCHEDULERS: usize = 16;

/// Events of a program.
pub const MAX_EVENTS: usize = 256;

/// Shared variables of a program.
pub const MAX_SHARED: usize = 256;

/// Modules of a program.
pub const MAX_MODULES: usize = 256;

/// Starts of a program.
pub const MAX_STARTS: usize = 4096;

/// Outside clients of a program.
pub const MAX_CLIENTS: usize = 16;

/// Orders of an outside client.
pub const MAX_ORDERS: usize = 1024;

/// Parameters of a module.
pub const MAX_PARAMETERS: usize = 8;

/// Local variables of a module.
pub const MAX_LOCALS: usize = 32;

/// Statements of a module, at every depth.
pub const MAX_STATEMENTS: usize = 4096;

/// Operands of an expression.
pub const MAX_OPERANDS: usize = 64;

/// Arguments of a call.
pub const MAX_ARGUMENTS: usize = 8;

/// Events of a `select`.
pub const MAX_CHOICES: usize = 8;

/// Bodies, brackets and signs that stand in one another.
pub const MAX_NESTING: usize = 32;
