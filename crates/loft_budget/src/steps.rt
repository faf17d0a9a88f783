//! The most steps of some work, from one sure statement to the next.

/// The most steps of some work; none where there is no such way (docs/SEMANTICS.md, "Step bounds").
#[derive(Clone, Copy)]
pub struct Steps {
    /// From its start to its end without a sure statement.
    pub through: Option<u64>,
    /// From its start to a sure statement, with it.
    pub head: Option<u64>,
    /// From going on after a sure statement to the end.
    pub tail: Option<u64>,
    /// From going on after a sure statement to the next one.
    pub most: Option<u64>,
}
