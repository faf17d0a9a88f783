//! Whether a program is correct, and what it does, doesn't depend on where its words stand in its text.
#![tactic(auto)]

mod law;

pub use law::offsets_dont_matter;
