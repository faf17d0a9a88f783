//! Which lines of a listing are wrong by their names (docs/CODE.md, "Names in a listing").
#![tactic(auto)]

mod expression;
mod first;
mod laws;
mod least;
mod misplaced;
mod name;
mod operation;
mod statement;

pub use first::{first_misplaced, first_wrong_name};
pub use laws::{offsets_are_free, threads_begin_where_made};
pub use operation::operation_names;
