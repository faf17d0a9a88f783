//! The events of an instant: which are present, each with its values in order.
#![tactic(auto)]

mod board;
mod laws;
mod presence;

pub use board::Board;
pub use laws::{
    events_are_apart, events_stay_present, number_of_events_stays, values_come_in_order,
};
