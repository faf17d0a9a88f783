//! What is sent goes to where it waits.

ghost use Rattle.std.specs.Prelude.{◌≡◌, ◌++◌, ◌≤◌, [], drop, length, take, OnOk, OnErr};
ghost use Rattle.std.specs.Option.{option_to_list, option_map};
ghost use Rattle.loft_history.specs.History.{is_addressed, orders_to, job_before, jobs_sent};
ghost use Rattle.loft_sense.specs.Heads.{scheduler};
ghost use Rattle.loft_world.specs.State.{each_with};

use loft_base::{NoMemory, TryClone};
use loft_orders::{Order, Orders, Sent, SharedThread, To};
use std::alloc::Global;
use std::collections::VecDeque;

/// Whether the scheduler of this index is addressed.
fn is_addressed(at: usize, to: To) -> bool
    ensures { result ≡ is_addressed (scheduler at) to }
{
    match to {
        To::Sched(other) => at == other.0 as usize,
        To::Others(other) => at != other.0 as usize,
        To::All => true,
        To::Workers => false,
    }
}

/// How many of these orders are addressed to the scheduler of this index.
fn count_addressed(at: usize, sents: &[Sent]) -> usize {
    let mut count = 0;
    for sent in sents {
        if is_addressed(at, sent.to) {
            count += 1;
        }
    }
    count
}

/// Adds copies of the orders that are addressed to the scheduler of this index. Where it is out of
/// memory, some may be there.
fn add_some(alloc: Global, at: usize, orders: &mut Orders, sents: &[Sent]) -> Result<(), NoMemory>
    ensures ok { OnOk result (orders.new ≡ orders.old ++ orders_to (scheduler at) sents.now) }
    ensures err { take (length orders.old) orders.new ≡ orders.old }
{
    for sent in sents {
        if is_addressed(at, sent.to) {
            orders.push(sent.order.try_clone(alloc)?)?;
        }
    }
    Ok(())
}

/// The same. Where it is out of memory, nothing is added.
fn add_orders(alloc: Global, at: usize, orders: &mut Orders, sents: &[Sent]) -> Result<(), NoMemory>
    ensures ok { OnOk result (orders.new ≡ orders.old ++ orders_to (scheduler at) sents.now) }
    ensures err { OnErr result (orders.new ≡ orders.old) }
{
    orders.reserve(count_addressed(at, sents))?;
    let before = orders.len();
    let added = add_some(alloc, at, orders, sents);
    if added.is_err() {
        orders.truncate(before);
    }
    added
}

/// Adds copies of the orders that are addressed to each scheduler from this index on. Where it is
/// out of memory, nothing is added.
fn add_from(alloc: Global, at: usize, waits: &mut [Orders], sents: &[Sent]) -> Result<(), NoMemory>
    requires { at ≤ length waits.old }
    ensures ok { OnOk result
        (waits.new ≡ take at waits.old ++ each_with at sents.now (drop at waits.old)) }
    ensures err { OnErr result (waits.new ≡ waits.old) }
{
    if at == waits.len() {
        return Ok(());
    }
    let before = waits[at].len();
    add_orders(alloc, at, &mut waits[at], sents)?;
    if add_from(alloc, at + 1, waits, sents).is_err() {
        waits[at].truncate(before);
        return Err(NoMemory);
    }
    Ok(())
}

/// The thread that an order takes to the workers.
fn job_of(sent: &Sent) -> Option<&SharedThread>
    ensures { job_before sent.now.to sent.now.order []
        ≡ option_to_list (option_map (λ t. t.now) result) }
{
    match (sent.to, &sent.order) {
        (To::Workers, Order::Arrive(thread)) => Some(thread),
        _ => None,
    }
}

/// Adds the threads that are sent to the workers. Where it is out of memory, some may be there.
fn add_jobs(jobs: &mut VecDeque<SharedThread>, sents: &[Sent]) -> Result<(), NoMemory>
    ensures ok { OnOk result (jobs.new.items ≡ jobs.old.items ++ jobs_sent sents.now) }
    ensures err { take (length jobs.old.items) jobs.new.items ≡ jobs.old.items }
{
    for sent in sents {
        if let Some(thread) = job_of(sent) {
            jobs.push_back(thread.share()?)?;
        }
    }
    Ok(())
}

/// Adds copies of what is sent to where it waits: orders by scheduler, threads for the workers.
/// Where it is out of memory, nothing is added.
pub(crate) fn add_all(
    alloc: Global,
    waits: &mut Vec<Orders>,
    jobs: &mut VecDeque<SharedThread>,
    sents: &[Sent],
) -> Result<(), NoMemory>
    ensures waits { OnOk result (waits.new.items ≡ each_with 0 sents.now waits.old.items) }
    ensures jobs { OnOk result (jobs.new.items ≡ jobs.old.items ++ jobs_sent sents.now) }
    ensures same_waits { OnErr result (waits.new.items ≡ waits.old.items) }
    ensures same_jobs { OnErr result (jobs.new.items ≡ jobs.old.items) }
{
    let before = jobs.len();
    let mut added = add_jobs(jobs, sents);
    if added.is_ok() {
        added = add_from(alloc, 0, waits.as_mut_slice(), sents);
    }
    if added.is_err() {
        jobs.truncate(before);
    }
    added
}
