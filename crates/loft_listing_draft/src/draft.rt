//! Drafts.

use loft_listing_line::OperationRow;
use loft_tree::Item;

/// The longest listing, in bytes: 128 MiB.
pub const MAX_LISTING_LEN: usize = 134_217_728;

/// An operation, with names as they are written.
#[derive(Drop)]
pub struct OperationLine {
    /// The offset of its line.
    pub at: u32,
    /// What the line says; the offsets in it mean nothing.
    pub operation: OperationRow,
}

/// What a listing says, with names as they are written (docs/CODE.md, "What a listing says").
#[derive(Drop)]
pub struct Draft {
    /// The declarations, modules with empty bodies. Each name has the offset of its line.
    pub items: Vec<Item>,
    /// For each declaration its operations: those of a module, else none.
    pub operations: Vec<Vec<OperationLine>>,
}

/// What a text says up to its end, or up to the line where it stops being a listing.
#[derive(Drop)]
pub struct Drafted {
    /// What the lines say; a module or a client that they leave open is closed.
    pub draft: Draft,
    /// The offset at which the text stops being a listing: that of the first line that can't stand
    /// there, or of the end where a line is missing; none where it is a listing.
    pub stop: Option<u32>,
}
