//! Listings that are written are read again (docs/CODE.md, "Listings that are read").
#![tactic(auto)]

mod law;

pub use law::{
    compiled_code_is_listed, listed_code_is_written, texts_have_one_answer, written_code_is_listed,
};
