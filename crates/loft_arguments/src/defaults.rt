//! The options of a run for which none is given (docs/COMMANDS.md, "Words").

/// How many instants each scheduler makes at most, where the words don't say it.
pub const DEFAULT_INSTANTS: u64 = 100;

/// How many steps a thread makes at most in an instant, where the words don't say it.
pub const DEFAULT_BUDGET: u64 = 10_000;

/// How many steps an unlinked block makes at most, where the words don't say it.
pub const DEFAULT_BLOCK: u64 = 1_000_000;

/// How many worker threads there are, where the words don't say it.
pub const DEFAULT_WORKERS: u32 = 2;
