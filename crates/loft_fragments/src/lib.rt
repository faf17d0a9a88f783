//! The readers of single parts of sources, each of which is a text by itself.
#![tactic(auto)]

mod part;

pub use part::{
    read_declaration, read_expression, read_head, read_local, read_order, read_statement,
};
