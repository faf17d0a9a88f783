//! The call that the program makes (`loft_main`), with its status.
#![tactic(auto)]

mod generated;
mod replaying;
mod status;
mod telling;
mod top_call;

pub use status::Status;
pub use top_call::loft_main;
