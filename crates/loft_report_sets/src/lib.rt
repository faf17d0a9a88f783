//! Which bytes are a spelling of a part of a report, and which are a prefix of one.
#![tactic(auto)]

mod bytes;
mod line;
mod menu;
mod name;
mod number;
mod set;
mod taking;
mod word;

pub use number::value_of;
pub use set::{begins_spelling, is_spelling, is_whole};
pub use taking::taken;
pub use word::{spelling_of, word_of};
