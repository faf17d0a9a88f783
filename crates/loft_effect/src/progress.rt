//! How far runs of threads have come (docs/SEMANTICS.md, "Unlinked blocks").

use crate::gone::Gone;

/// How far a run has come, where R is a run in its midst.
#[derive(Drop)]
pub enum Progress<R> {
    /// It goes on.
    Goes(R),
    /// It has stopped.
    Stops(Gone),
}
