//! The linked threads of a scheduler, with their waits kept over its instants (docs/SEMANTICS.md, "Waiting lists").
#![tactic(auto)]

mod close;
mod line;
mod pack;
mod run;
mod slots;
mod standings;

pub use line::Line;
