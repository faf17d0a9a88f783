//! Code: what each module of a program does, as a list of operations, and whether it is valid.
#![tactic(auto)]

mod counts;
mod error;
mod jumps;
mod kinds;
mod laws;
mod limits;
mod names;
mod op;
mod places;
mod raw;
mod slots;
mod valid;
mod ways;

pub use error::{CodeError, OpAt};
pub use laws::{code_is_decided, valid_code_leads_on};
pub use limits::{MAX_DEPTH, MAX_OPERATIONS};
pub use op::Op;
pub use raw::{CodeLine, CodeProgram, ModuleCode, RawCode};
pub use valid::{Code, validate};
