//! Where the orders and the threads of a history are: each order in one batch, each thread in one place.
#![tactic(auto)]

pub mod laws;

pub use laws::{
    jobs_are_picked_in_order, orders_stand_in_one_batch, threads_are_in_one_place,
    what_waits_was_sent_since,
};
