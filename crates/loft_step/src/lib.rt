//! One thread runs by the operations of valid code, from where it stood to the stop that holds it or by which it leaves, or to
//! its end.
#![tactic(auto)]

mod jump;
mod midst;
mod paused;
mod running;
mod step;
mod thread;
mod value;
mod walk;

pub use loft_count::Steps;
pub use loft_effect::{Around, Gone, Progress};
pub use midst::Paused;
pub use paused::{begin, go_on};
pub use thread::go;
pub use value::eval;
