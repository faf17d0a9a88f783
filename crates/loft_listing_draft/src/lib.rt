//! Listings as drafts: what their lines say, with names as they are written (docs/CODE.md, "What a listing says").
#![tactic(auto)]

mod closed;
mod counts;
mod draft;
mod placed;
mod read;
mod sofar;
mod take;

pub use draft::{Draft, Drafted, MAX_LISTING_LEN, OperationLine};
pub use read::read_draft;
