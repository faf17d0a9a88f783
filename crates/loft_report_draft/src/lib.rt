//! What the spellings of a report tell, as it is read.
#![tactic(auto)]

mod draft;
mod text;

pub use draft::Draft;
