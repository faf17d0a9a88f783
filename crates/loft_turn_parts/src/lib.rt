//! The parts of the turns of schedulers and of the orders of clients: those that change the world, and those between them,
//! which need no world.
#![tactic(auto)]

mod client;
mod laws;
mod turns;

pub use client::next_order;
pub use laws::{
    jobs_follow_their_entries, orders_follow_their_entries, turns_follow_their_entries,
};
pub use turns::{give_last, make_instant, take_where_due};
