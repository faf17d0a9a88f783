//! Grammars as data: what a form spells, where reading it stops, and which fault a list of symbols has.
//!
//! A user writes a `Language` and a form for each of its rules (specs/Form.antt), and shows `Checked` of them and of the
//! form of a whole list (proofs/Checked.antt): that the next symbol always tells how a form goes on, and that each rule
//! stands after a symbol that opens a nesting. Both are tests that compute, so `refl` shows them.
//! It gets that reading gives what the symbols spell, and only that (proofs/Whole.antt), and else fails with their one
//! fault (FirstFault), which depends on no symbol after it (Local); that no limit changes the answer but by coming before
//! the stop of the grammar without limits (FirstFault, Fuel); and each step of a reader that loops (Lists, Nesting).
#![tactic(auto)]

mod fault;
mod stop;

pub use fault::Fault;
pub use stop::Stop;
