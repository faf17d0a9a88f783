//! Why the links of a program are refused.

use loft_tree::Place;

/// Why the links of a program are refused (docs/LANGUAGE.md, "Links"). `at` is an offset in the text, the number of bytes
/// before it; a `Place` is where a thread is linked.
#[derive(Clone, Copy, Debug, PartialEq, Eq)]
pub enum PlaceError {
    /// The event, the shared variable or the module of a `run` that is named at this offset needs a thread that is
    /// linked at `needs`, and the thread is linked at `has`; or the module of a start or a create begins at `needs`, and
    /// the scheduler that is named at this offset is `has`.
    NotHere {
        at: u32,
        needs: Place,
        has: Place,
    },
    /// The word of a statement, or the shared variable, at this offset isn't allowed to a thread that is linked nowhere.
    Unlinked(u32),
    /// The branches of the `if` at this offset end in different places, the left one at `left`, the right one at `right`.
    Branches {
        at: u32,
        left: Place,
        right: Place,
    },
    /// The body of the loop at this offset begins at `start`, and ends elsewhere, at `end`.
    LoopEnds {
        at: u32,
        start: Place,
        end: Place,
    },
    /// The module whose name stands at this offset declares that it ends at `declared`, and its body ends elsewhere, at
    /// `end`.
    ModuleEnds {
        at: u32,
        declared: Place,
        end: Place,
    },
    /// Out of memory. `place` takes no memory, and never answers this.
    NoMemory,
}
