//! The threads of an instant as it closes (docs/SEMANTICS.md, "Instant").

ghost use Rattle.std.specs.Prelude.{◌≡◌, ◌++◌, [], ◌∷◌, map, filter, option_map, IfOk, OnOk};
ghost use Rattle.loft_sense.specs.Instant.{lowered as lowered_by, closed_wait as closed_wait_of, closed as closed_runner, closed_thread, stays, has_run, leavers as leavers_of};
ghost use Rattle.loft_passes.specs.View.{standings_of, linked_of, runners_of, is_held};

use crate::leavers::Leavers;
use crate::runner::Runner;
use loft_base::{NoMemory, Sequence, TryClone};
use loft_effect::take_thread;
use loft_orders::{Sents, Stop, Threads, Wait};
use std::alloc::Global;

/// A number left in a wait, one lower where it is positive.
fn lowered(left: i64) -> i64
    ensures { result ≡ lowered_by left }
{
    if left > 0 { left - 1 } else { left }
}

/// The same where there is a number.
fn lowered_if(left: Option<i64>) -> Option<i64>
    ensures { result ≡ option_map lowered_by left }
{
    match left {
        Some(left) => Some(lowered(left)),
        None => None,
    }
}

/// A wait closes.
fn close_wait(wait: &mut Wait)
    ensures { wait.new ≡ closed_wait_of wait.old }
{
    match wait {
        Wait::New => {}
        Wait::Coop(left) => *left = lowered(*left),
        Wait::Events { events: _, left } => *left = lowered_if(*left),
        Wait::Index { event: _, at: _ } => *wait = Wait::Next,
        Wait::Next => {}
        Wait::Join { thread: _, left } => *left = lowered_if(*left),
        Wait::Halt => {}
    }
}

/// A thread closes: one that is held waits one instant less, unless it is suspended, and is copied where it ran; one that
/// leaves is taken.
fn close_one(
    alloc: Global,
    runner: &mut Runner,
    stands: &mut Threads,
    leavers: &mut Leavers,
) -> Result<(), NoMemory>
    ensures linked { OnOk result (standings_of (filter (λ r. is_held r.stop) (runner.new ∷ []))
        ≡ map closed_runner (filter stays (linked_of runner.old))) }
    ensures stands { OnOk result (stands.new
        ≡ stands.old ++ map closed_thread (filter has_run (filter stays (linked_of runner.old)))) }
    ensures leavers { OnOk result (leavers.new ≡ leavers.old ++ leavers_of (linked_of runner.old)) }
{
    match runner.stop {
        Stop::Holds => {
            if !runner.suspended {
                close_wait(&mut runner.thread.wait);
            }
            if runner.runs > 0 {
                stands.push(runner.thread.try_clone(alloc)?)?;
            }
            Ok(())
        }
        Stop::Leaves(to) => {
            let thread = take_thread(alloc, &mut runner.thread);
            leavers.push(thread, to)
        }
        Stop::Ends(_) => Ok(()),
    }
}

/// Each thread closes.
fn close_each(
    alloc: Global,
    runners: &mut Vec<Runner>,
    stands: &mut Threads,
    leavers: &mut Leavers,
) -> Result<(), NoMemory>
    ensures linked { OnOk result (standings_of (filter (λ r. is_held r.stop) runners.new.items)
        ≡ map closed_runner (filter stays (runners_of runners.old.items))) }
    ensures stands { OnOk result (stands.new ≡ stands.old
        ++ map closed_thread (filter has_run (filter stays (runners_of runners.old.items)))) }
    ensures leavers { OnOk result (leavers.new
        ≡ leavers.old ++ leavers_of (runners_of runners.old.items)) }
{
    for runner in runners.iter_mut() {
        close_one(alloc, runner, stands, leavers)?;
    }
    Ok(())
}

/// How many threads are held and ran.
fn count_ran(runners: &[Runner]) -> usize {
    let mut count = 0;
    for runner in runners {
        if runner.is_held() && runner.runs > 0 {
            count += 1;
        }
    }
    count
}

/// How many threads leave.
fn count_leavers(runners: &[Runner]) -> usize {
    let mut count = 0;
    for runner in runners {
        if matches!(runner.stop, Stop::Leaves(_)) {
            count += 1;
        }
    }
    count
}

/// Those that have left or ended are dropped.
fn keep_held(runners: &mut Vec<Runner>)
    ensures { runners.new.items ≡ filter (λ r. is_held r.stop) runners.old.items }
{
    runners.retain(|runner| runner.is_held());
}

/// The threads close: they are those that are still linked from now on, and the ones among them that ran are the answer.
/// Where so much was sent already, the leavers come after it.
pub fn close_all(
    alloc: Global,
    runners: &mut Vec<Runner>,
    sent: &mut Sents,
) -> Result<Threads, NoMemory>
    ensures linked { OnOk result (standings_of runners.new.items
        ≡ map closed_runner (filter stays (runners_of runners.old.items))) }
    ensures stands { IfOk result (λ stands. stands
        ≡ map closed_thread (filter has_run (filter stays (runners_of runners.old.items)))) }
    ensures sent { OnOk result (sent.new ≡ sent.old ++ leavers_of (runners_of runners.old.items)) }
{
    let room = Vec::with_capacity(alloc, count_ran(runners.as_slice()))?;
    let mut stands = Sequence::from_vec(room);
    let mut leavers = Leavers::with_capacity(alloc, count_leavers(runners.as_slice()))?;
    close_each(alloc, runners, &mut stands, &mut leavers)?;
    keep_held(runners);
    leavers.send(alloc, sent)?;
    Ok(stands)
}
