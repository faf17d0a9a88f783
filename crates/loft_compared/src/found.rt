//! What a comparison has found.

/// What a comparison has found.
#[derive(Clone, Copy)]
pub(crate) enum Found {
    /// All bytes so far were equal.
    Equal,
    /// This one differs.
    Other(u8),
    /// Out of memory.
    NoMemory,
}
