//! What threads do: the meaning of statements, of runs and of instants, and their laws.
#![tactic(auto)]

pub mod code_laws;
pub mod engine;
pub mod laws;
pub mod limits;
pub mod run_laws;
pub mod tally;

pub use code_laws::{
    codes_come_from_waits_and_limits, earlier_closes_set_marks_and_zeros,
    stops_set_codes_as_they_begin, the_close_marks_and_lowers, waits_are_pending_until_the_close,
    waits_set_codes_as_they_end,
};
pub use engine::Engine;
pub use laws::passes_end;
pub use limits::{MAX_BLOCK_ENTRIES, MAX_ENTRIES, MAX_FRAMES, MAX_LINKED, SPENT_BYTES, SPENT_GONE};
pub use run_laws::{
    Claim, acts_tell_what_was_done, events_stay_present_in_an_instant,
    instants_keep_what_is_declared, instants_make_few_entries, moments_go_run_by_run,
    nobody_waits_for_a_present_event, passes_go_in_order, runs_keep_what_is_declared,
    runs_make_few_entries, threads_run_within_the_budget, what_runs_keep_holds_between_them,
};
pub use tally::{Tally, most_bytes, most_gone};
