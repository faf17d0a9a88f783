//! What a caller has in hand of a call.

/// The call was accepted: its entry is at this position of the history, counted from 1
/// (docs/EMBEDDING.md, "Receipts").
#[derive(Clone, Copy, Debug, PartialEq, Eq)]
pub struct Receipt {
    pub stamp: u64,
}
