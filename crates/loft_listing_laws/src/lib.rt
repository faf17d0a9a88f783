//! Lines of a listing by their texts (docs/CODE.md, "Lines of a listing").
#![tactic(auto)]

mod law;

pub use law::{lines_say_one_thing, texts_say_one_thing};
