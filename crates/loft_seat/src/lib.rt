//! An actor's pass with what the actor has done and seen, the five steps by which actors go on, and a look.
#![tactic(auto)]

mod seat;
mod steps;

pub use seat::Seat;
pub use steps::{code_is_well_formed, give, give_order, pick, post, sees_quiet, take};
