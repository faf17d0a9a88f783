//! What every other crate stands on: ids, values, lists, 64-bit arithmetic, the options of a run,
//! the outside (files, a sink for the answer, a gate) with its forms in memory and over the host, and the writing of a
//! text to a sink.
#![tactic(auto)]

mod arithmetic;
mod copy;
mod errors;
mod host;
mod ids;
mod in_memory;
mod lists;
pub mod options;
mod out;
mod outside;
mod room;
mod streams;
mod walk;
mod whole;
mod writing;

pub use arithmetic::{add, division_law, less, mul, quot, rem, sub, wrapping_law};
pub use copy::{TryClone, try_clone_all};
pub use errors::{Div, Failed, FileError, NoMemory};
pub use host::{HostFiles, HostSink};
pub use ids::{EventId, Maker, ModuleId, SchedId, SharedId, ThreadId, Value};
pub use in_memory::{MemFiles, MemSink, OpenGate};
pub use lists::{Sequence, Values};
pub use options::{Limits, MAX_BLOCK, MAX_BUDGET, MAX_INSTANTS, MAX_WORKERS, RunOptions};
pub use out::Out;
pub use outside::{Files, Gate, Sink, Turn};
pub use room::Room;
pub use walk::FileWalk;
pub use whole::read_whole;
pub use writing::{WriteError, write_lines};
