//! The command `replay`: the report in a file is checked by the source in another one (docs/COMMANDS.md, "replay").
#![tactic(auto)]

mod answer;
mod checking;
mod finding;
mod refusal;
mod replaying;
mod stops;

pub use refusal::{LogRefusal, ReplayStop};
pub use replaying::replay;
