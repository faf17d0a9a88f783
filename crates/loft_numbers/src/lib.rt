//! Numbers in place of names (docs/LANGUAGE.md, "Numbers of names").
#![tactic(auto)]

mod call;
mod expression;
mod head;
mod item;
mod link;
mod module;
mod name;
mod part;
mod statement;

pub use expression::term as number_expression;
pub use head::heads as number_heads;
pub use link::links as number_links;
pub use module::modules as number_modules;
pub use part::place as number_place;
pub use statement::number_statement;
