//! Listings that are read (docs/CODE.md, "Listings that are read").
#![tactic(auto)]

mod earlier;
mod error;
mod law;
mod line;
mod module;
mod operation;
mod reading;
mod wrong;

pub use error::ListError;
pub use law::read_code_keeps_limits;
pub use reading::read;
