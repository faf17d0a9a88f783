//! What running leaves: threads that stand in a program, run in it, stand again. Programs whose
//! threads run alike have the same histories.
#![tactic(auto)]

pub mod alike_laws;
pub mod history_laws;
pub mod laws;
pub mod thread_laws;

pub use alike_laws::programs_that_run_alike_agree;
pub use history_laws::{replays_keep_standing, waiting_orders_fit, what_is_sent_waits_fit};
pub use laws::{
    instants_keep_standing, stops_leave_what_comes_after, threads_keep_standing,
    well_formed_programs_never_stick,
};
pub use thread_laws::{ThreadClaim, threads_keep_what_runs_keep};
