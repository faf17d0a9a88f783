//! The readers of the parts of a program: expressions, statements and declarations.
#![tactic(auto)]

mod argument;
pub mod body;
mod constant_argument;
mod event_statement;
pub mod expression;
pub mod head;
pub mod item;
mod optional;
pub mod order;
mod thread_statement;
mod value_statement;
