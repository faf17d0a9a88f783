//! Threads that orders name.

ghost use Rattle.std.specs.Prelude.{◌↔◌, IsTrue};
ghost use Rattle.loft_tree.specs.Fits.{Each};
ghost use Rattle.loft_sense.specs.Fits.{IsMaker, IsThread, IsValue, WaitNames, FrameNames, ThreadNames};

use loft_base::{Maker, ThreadId, Value};
use loft_orders::{Frame, Thread, Wait};
use loft_tree::Heads;

/// Whether the program has this maker of threads.
fn is_maker(heads: &Heads, maker: Maker) -> bool
    ensures { IsTrue result ↔ IsMaker heads.now maker }
{
    match maker {
        Maker::Sched(scheduler) => (scheduler as usize) < heads.schedulers.len(),
        Maker::Source | Maker::Client(_) => true,
    }
}

/// Whether a maker of the program may have made the thread, whatever its number is (docs/SEMANTICS.md, "Fits").
pub fn is_thread(heads: &Heads, thread: ThreadId) -> bool
    ensures { IsTrue result ↔ IsThread heads.now thread }
{
    is_maker(heads, thread.maker)
}

/// Whether the value is a number or such a thread.
fn is_value(heads: &Heads, value: Value) -> bool
    ensures { IsTrue result ↔ IsValue heads.now value }
{
    match value {
        Value::Int(_) => true,
        Value::Thread(thread) => is_thread(heads, thread),
    }
}

/// Whether each of the values is a number or such a thread.
pub fn are_values(heads: &Heads, values: &[Value]) -> bool
    ensures { IsTrue result ↔ Each (IsValue heads.now) values.now }
{
    for value in values {
        if !is_value(heads, *value) {
            return false;
        }
    }
    true
}

/// Whether the thread that the wait names, if it names one, is declared.
fn wait_names(heads: &Heads, wait: &Wait) -> bool
    ensures { IsTrue result ↔ WaitNames heads.now wait.now }
{
    match wait {
        Wait::Join { thread, .. } => is_thread(heads, *thread),
        Wait::New
        | Wait::Coop(_)
        | Wait::Events { .. }
        | Wait::Index { .. }
        | Wait::Next
        | Wait::Halt => true,
    }
}

/// Whether the threads that the values of the frames name are declared.
fn frames_name(heads: &Heads, frames: &[Frame]) -> bool
    ensures { IsTrue result ↔ Each (FrameNames heads.now) frames.now }
{
    for frame in frames {
        if !are_values(heads, frame.values.as_slice()) {
            return false;
        }
    }
    true
}

/// Whether all threads that are named in a thread are declared: its own, that of its wait, and those in the values of its
/// frames (docs/SEMANTICS.md, "Fits").
pub fn thread_names(heads: &Heads, thread: &Thread) -> bool
    ensures { IsTrue result ↔ ThreadNames heads.now thread.now }
{
    is_thread(heads, thread.id)
        && wait_names(heads, &thread.wait)
        && frames_name(heads, thread.frames.as_slice())
}
