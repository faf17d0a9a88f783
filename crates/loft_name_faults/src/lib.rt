//! What is wrong with the uses of names (docs/LANGUAGE.md, "Kinds").
#![tactic(auto)]

mod call;
mod expression;
mod item;
mod name;
mod order;
mod simple;
mod statement;

pub use item::note_uses;
