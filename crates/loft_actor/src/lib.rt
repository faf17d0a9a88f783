//! Whole runs: every actor makes its turns on a thread of its own, phase after phase.
#![tactic(auto)]

mod begin;
mod end;
mod look;
mod run;

pub use begin::{outsiders_of, station_of, workers_of};
pub use loft_phase::{Actors, phase};
pub use loft_station::{Outsider, Station, Worker};
pub use run::{Engines, run_all};
