//! The listing of code: its text (docs/CODE.md, "Listing").
#![tactic(auto)]

mod declaration;
mod expression;
mod listing;
mod name;
mod operation;
mod outer;
mod statement;
mod text;

pub use listing::write;
