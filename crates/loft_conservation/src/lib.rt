//! What running sends: the orders of one run of a thread, of one instant and of one unlinked block.
#![tactic(auto)]

pub mod laws;

pub use laws::{
    blocks_end_at_their_last, blocks_keep_their_thread, instants_keep_threads, runs_add_acts,
};
