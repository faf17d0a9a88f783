//! A program and its code do the same. Both ways to run a program stand here side by side: walking its statements, and
//! stepping through the code that the compiler makes of it. `both_ways` shows that the contracts of the crates below
//! suffice for that, without a lemma of theirs. Nothing stands on this crate.
#![tactic(auto)]

mod run;

pub use run::{BothWays, Ready, both_ways};
