//! The canonical text of a program (docs/LANGUAGE.md, "Canonical text").
#![tactic(auto)]

mod expression;
mod item;
mod law;
mod line;
mod list;
mod order;
mod part;
mod pieces;
mod program;
mod simple;
mod statement;

pub use law::{canon_parts_read, canon_reads};
pub use program::show;

// The writers of single lines as they stand in the canonical text, for other texts that have such lines.
pub use expression::put_expression;
pub use item::{put_brace_line, put_head, put_item, put_local, put_outside_line, put_place};
pub use line::put_bare_line;
pub use order::put_order;
pub use statement::put_statement_line;
