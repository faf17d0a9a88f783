//! Laws of texts with locks: which program each stands for, and that its locks are kept.
#![tactic(auto)]

pub mod laws;

pub use laws::{expansions_keep_their_locks, names_are_checked, texts_come_to_one_answer};
