//! What threads, orders, notes and entries are, as values, and how a report spells them.
#![tactic(auto)]

pub mod copy;
pub mod entry;
mod line;
pub mod note;
pub mod order;
pub mod shared_thread;
pub mod shared_values;
pub mod thread;

pub use entry::{Actor, Entry};
pub use line::Line;
pub use note::{
    Act, Acts, BoxedSent, Change, Changes, Ended, Ends, FinalState, InstantNote, Numbers, Standing,
    Standings,
};
pub use order::{At, End, Mark, Marks, Order, Orders, Sent, Sents, Stop, To};
pub use shared_thread::{SharedThread, ThreadGroup};
pub use shared_values::SharedValues;
pub use thread::{Counts, Events, Frame, Frames, Thread, Threads, Wait};
