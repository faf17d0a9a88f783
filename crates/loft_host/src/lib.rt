//! A source runs in a host program, whose own threads give orders (docs/EMBEDDING.md, "A whole run").
#![tactic(auto)]

mod begin;
mod caller;
mod desk;
mod end;
mod engines;
mod round;
mod run;
mod source;

pub use caller::{Caller, Next};
pub use run::{Hosted, run_with_callers};
pub use source::{SourceError, code_of};
