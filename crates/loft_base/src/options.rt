//! The options of a run, and their ranges (docs/LANGUAGE.md, "Limits").

/// The most instants that a scheduler can be given.
pub const MAX_INSTANTS: u64 = 1_000_000;

/// The most steps that a thread can be given for an instant.
pub const MAX_BUDGET: u64 = 1_000_000;

/// The most steps that an unlinked block can be given.
pub const MAX_BLOCK: u64 = 100_000_000;

/// The most worker threads.
pub const MAX_WORKERS: u32 = 16;

/// The bounds of every scheduler and worker.
#[derive(Clone, Copy)]
pub struct Limits {
    /// How many instants a scheduler makes at most, 1 to `MAX_INSTANTS`.
    pub instants: u64,
    /// How many steps a thread makes at most in an instant, 1 to `MAX_BUDGET`.
    pub budget: u64,
    /// How many steps an unlinked block makes at most, 1 to `MAX_BLOCK`.
    pub block: u64,
}

/// The options of a run.
#[derive(Clone, Copy)]
pub struct RunOptions {
    pub limits: Limits,
    /// How many worker threads there are, 1 to `MAX_WORKERS`.
    pub workers: u32,
}
