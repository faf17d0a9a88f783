//! Threads by position, beside their waits.

ghost use Rattle.std.specs.Prelude.{◌≡◌, ◌<◌, ℕ, Some, None, true, false, length, not, ◌&&◌, slice_get, slice_set, OnOk};
ghost use Rattle.loft_orders.specs.declared.thread.Wait.TheVariants.{Halt as Halts};
ghost use Rattle.loft_passes.specs.declared.runner.Runner.{Runner as ARunner};
ghost use Rattle.loft_passes.specs.View.{is_held as is_held_by};
ghost use Rattle.loft_waits.specs.Told.{wait_at};
ghost use Rattle.loft_ready.specs.Entered.{wait_of};
ghost use Rattle.loft_finder.specs.Finder.{may_stand, KeepsAll, KeepsOthers};
ghost use Rattle.loft_line.specs.Line.{with_wait, without_wait, is_named as is_named_by, IsFirst, IsEmptied, AreNamed};

use loft_base::{NoMemory, ThreadId};
use loft_effect::{same_thread, take_thread};
use loft_finder::Finder;
use loft_orders::{End, Stop, Thread, Wait};
use loft_passes::Runner;
use loft_waits::Waits;
use std::alloc::Global;
use std::mem;

/// A thread has this wait from now on.
fn set_wait(runner: &mut Runner, wait: Wait)
    ensures { runner.new ≡ with_wait (Some wait) runner.old }
{
    runner.thread.wait = wait;
}

/// The wait of a thread is taken.
fn take_wait(runner: &mut Runner) -> Wait
    ensures wait { result ≡ runner.old.thread.wait }
    ensures runner { runner.new ≡ with_wait (Some Halts) runner.old }
{
    mem::replace(&mut runner.thread.wait, Wait::Halt)
}

/// A thread is suspended from now on, or isn't any more.
pub(crate) fn set_suspended(runner: &mut Runner, suspended: bool)
    ensures { runner.new ≡ record runner.old { suspended = suspended } }
{
    runner.suspended = suspended;
}

/// Whether a thread is held and isn't suspended.
fn is_awake(runner: &Runner) -> bool
    ensures { result ≡ is_held_by runner.now.stop && not runner.now.suspended }
{
    runner.is_held() && !runner.suspended
}

/// Whether a thread is held and has this id.
fn is_named(runner: &Runner, thread: ThreadId) -> bool
    ensures { result ≡ is_named_by thread runner.now }
{
    runner.is_held() && same_thread(thread, runner.thread.id)
}

/// The thread at a position has its own wait from now on, and nobody waits there.
pub(crate) fn leave(slots: &mut Vec<Runner>, waits: &mut Waits, pos: usize)
    requires within { pos < length slots.old.items }
    requires waits { pos < length waits.old.waits }
    ensures told { waits.new ≡ record waits.old { waits = slice_set waits.old.waits pos None } }
    ensures slots { (r : ARunner) → slice_get slots.old.items pos ≡ Some r
        → slots.new.items ≡ slice_set slots.old.items pos (with_wait (wait_at waits.old pos) r) }
{
    match waits.take(pos) {
        Some(wait) => set_wait(&mut slots[pos], wait),
        None => {}
    }
}

/// The wait of the thread at a position is entered, where it is held and isn't suspended.
pub(crate) fn enter(slots: &mut Vec<Runner>, waits: &mut Waits, pos: usize) -> Result<(), NoMemory>
    requires within { pos < length slots.old.items }
    requires waits { pos < length waits.old.waits }
    requires free { wait_at waits.old pos ≡ None }
    ensures told { OnOk result ((r : ARunner) → slice_get slots.old.items pos ≡ Some r
        → waits.new ≡ record waits.old { waits = slice_set waits.old.waits pos (wait_of r) }) }
    ensures slots { OnOk result ((r : ARunner) → slice_get slots.old.items pos ≡ Some r
        → slots.new.items ≡ slice_set slots.old.items pos (without_wait r)) }
{
    let runner = &mut slots[pos];
    if is_awake(runner) {
        let wait = take_wait(runner);
        waits.put(pos, wait)?;
    }
    Ok(())
}

/// The threads of two positions stand in each other's place from now on.
pub(crate) fn exchange(slots: &mut Vec<Runner>, pos: usize, to: usize)
    requires within { pos < length slots.old.items }
    requires inside { to < length slots.old.items }
    ensures { (h r : ARunner) → slice_get slots.old.items to ≡ Some h
        → slice_get slots.old.items pos ≡ Some r
        → slots.new.items ≡ slice_set (slice_set slots.old.items pos h) to r }
{
    slots.swap(pos, to);
}

/// The place at a position is empty from now on, and its thread isn't listed any more. The answer is
/// the thread that stood there.
pub(crate) fn empty(
    alloc: Global,
    slots: &mut Vec<Runner>,
    finder: &mut Finder,
    pos: usize,
) -> Thread
    requires within { pos < length slots.old.items }
    ensures thread { (r : ARunner) → slice_get slots.old.items pos ≡ Some r → result ≡ r.thread }
    ensures slots { IsEmptied pos slots.old.items slots.new.items }
    ensures finder { KeepsOthers pos finder.old finder.new }
{
    let runner = &mut slots[pos];
    finder.remove(runner.thread.id, pos);
    runner.stop = Stop::Ends(End::Stopped);
    take_thread(alloc, &mut runner.thread)
}

/// The position of the first held thread with this id, where none stands before the first one that is
/// looked at.
fn search(slots: &[Runner], from: usize, thread: ThreadId) -> Option<usize>
    requires { (i : ℕ) (r : ARunner) → i < from → slice_get slots.now i ≡ Some r
        → is_named_by thread r ≡ false }
    ensures { IsFirst result thread slots.now }
{
    for pos in from..slots.len() {
        if is_named(&slots[pos], thread) {
            return Some(pos);
        }
    }
    None
}

/// The position of the first held thread with this id.
fn position(finder: &Finder, slots: &[Runner], thread: ThreadId) -> Option<usize>
    requires { AreNamed finder.now slots.now }
    ensures { IsFirst result thread slots.now }
{
    match finder.first(thread, slots.len()) {
        Some(from) => search(slots, from, thread),
        None => None,
    }
}

/// A thread is listed at its position, where it is held.
fn list(finder: &mut Finder, runner: &Runner, pos: usize)
    ensures keeps { KeepsAll finder.old finder.new }
    ensures stands { is_held_by runner.now.stop ≡ true
        → may_stand finder.new runner.now.thread.id pos ≡ true }
{
    if runner.is_held() {
        finder.add(runner.thread.id, pos);
    }
}

/// Each held thread is listed at its position.
fn list_all(finder: &mut Finder, slots: &[Runner])
    ensures { AreNamed finder.new slots.now }
{
    finder.begin();
    for (pos, runner) in slots.iter().enumerate() {
        list(finder, runner, pos);
    }
}

/// The same as `position`. After many long searches the threads are listed before.
pub(crate) fn find(finder: &mut Finder, slots: &[Runner], thread: ThreadId) -> Option<usize>
    requires { AreNamed finder.old slots.now }
    ensures first { IsFirst result thread slots.now }
    ensures named { AreNamed finder.new slots.now }
{
    if finder.is_due() {
        list_all(finder, slots);
    }
    let found = position(finder, slots, thread);
    finder.count(found.unwrap_or(slots.len()));
    found
}
