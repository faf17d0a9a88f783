//! Room in the heap of the thread that calls.

use std::alloc::Global;

/// How many bytes a share asks for.
const ROOM: usize = 2 << 20;

/// Asks for a large block and gives it back, so that the system's allocator enlarges the heap of the
/// thread that calls by so much at once, and keeps it, in place of a page at a time (docs/ACTORS.md,
/// "What threads cost"). Where there is no such block, nothing is lost.
pub(crate) fn make_room(alloc: Global) {
    drop(Vec::<u8>::with_capacity(alloc, ROOM));
}
