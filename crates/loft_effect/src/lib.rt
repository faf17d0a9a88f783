//! What statements do to the thread that runs them and around it, in a frame with the values of its variables. Where the
//! thread goes on is left to who runs it.
#![tactic(auto)]

mod action;
mod around;
mod effect;
mod frame;
mod gone;
mod progress;
mod scope;
mod sight;
mod stop;
mod taken;
mod told;
mod value;

pub use around::{Around, same_thread};
pub use effect::Effect;
pub use frame::first_values;
pub use gone::{Gone, Outcome};
pub use progress::Progress;
pub use scope::{Beside, Scope};
pub use sight::Sight;
pub use taken::{take_around, take_thread};
pub use told::{tell_all, tell_end};
pub use value::{is_true, number_of};
