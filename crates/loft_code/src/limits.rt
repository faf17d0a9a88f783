//! The limits of code (docs/CODE.md, "Limits").

/// Operations of a module in a listing.
pub const MAX_OPERATIONS: usize = 16_384;

/// Counts of `repeat`s that are active at one operation.
pub const MAX_DEPTH: u64 = 32;
