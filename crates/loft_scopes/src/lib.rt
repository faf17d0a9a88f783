//! What a program declares, and where each declaration can be seen.
#![tactic(auto)]

mod counts;
mod declare;
mod error;
mod first_fault;
mod scope;
mod table;

pub use counts::{DeclarationCounts, next_module};
pub use declare::declare_all;
pub use error::NameError;
pub use first_fault::note;
pub use scope::Scope;
pub use table::{Entry, Sort, Table};
