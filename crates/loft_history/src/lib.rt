//! Histories: the entries of all actors, what waits beside them, which histories are legal and when one has ended, their
//! reports, and the laws of histories (docs/SEMANTICS.md, "History"). Definitions and lemmas; no code.
#![tactic(auto)]

mod laws;

pub use laws::{
    blocks_tell_what_is_used, ended_histories_go_no_further, ends_are_told_elsewhere,
    legal_histories_are_made, legal_histories_grow_by_entries, made_histories_are_legal,
    own_entries_tell, own_lists_grow,
};
