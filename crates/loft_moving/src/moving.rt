//! An engine and a block may go to another thread.

use loft_engine::CodeEngine;
use loft_job::Job;

/// Takes a value that may go to another thread.
fn may_move<T: Send>(_value: &T) {}

/// An engine may go to another thread, with the code that it runs. The call does nothing: it is there
/// so that its proof is asked for, and a change after which an engine could no longer go is refused.
pub fn engine_may_move(engine: &CodeEngine<'_>) {
    may_move(engine);
}

/// A block of an unlinked thread may go to another thread. The call does nothing, as the one before.
pub fn job_may_move(job: &Job) {
    may_move(job);
}
