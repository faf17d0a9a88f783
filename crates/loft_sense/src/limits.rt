//! Bounds of what threads do (docs/SEMANTICS.md, "Run" and "Apply").

/// The most entries that an instant of one scheduler has.
pub const MAX_ENTRIES: u64 = 65_536;

/// The most entries that an unlinked block has.
pub const MAX_BLOCK_ENTRIES: u64 = 32;

/// The most frames of a thread.
pub const MAX_FRAMES: usize = 32;

/// The most threads that a scheduler links by creates.
pub const MAX_LINKED: usize = 4096;

/// A scheduler whose block of the report has so many bytes makes no further instant.
pub const SPENT_BYTES: u64 = 16_777_216;

/// A scheduler that so many threads have left by `unlink` makes no further instant.
pub const SPENT_GONE: u64 = 65_536;
