//! The commands: what each does with the source or the listing in its file (`attempt`), and a run of code with its report.
#![tactic(auto)]

mod attempt_command;
mod code_run;
mod command;

pub use attempt_command::attempt;
pub use code_run::{RunError, run_code};
