//! A run so far, which goes on by one choice a call, with any engine for each scheduler and each worker.
#![tactic(auto)]

mod block_engine;
mod course;
mod laws;
mod setting;
mod station;
mod worker;

pub use block_engine::BlockEngine;
pub use course::Course;
pub use laws::well_formed_programs_can_run;
pub use setting::Setting;
pub use station::Station;
pub use worker::Worker;
