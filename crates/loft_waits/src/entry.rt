//! A wait, and when it was entered.

ghost use Rattle.std.specs.Prelude.{◌≡◌, ◌-◌, ◌≤◌, option_map, is_some, unwrap_or, IfOk};
ghost use Rattle.loft_sense.specs.CanGo.{is_over as is_over_with, is_any_counted, is_index as is_index_of, ran_out as ran_out_at, is_zero};
ghost use Rattle.loft_sense.specs.WaitCodes.{number_left};
ghost use Rattle.loft_waits.specs.Told.{count_in, is_next, ends_alone as ends_alone_of};
ghost use Rattle.loft_waits.specs.Aged.{aged, lowered_by, wait_now};

use loft_base::{EventId, NoMemory, TryClone};
use loft_ended::Ended;
use loft_orders::Wait;
use std::alloc::Global;

/// A wait, and how many instants had closed as it was entered.
#[derive(Drop)]
pub(crate) struct Entry {
    pub(crate) wait: Wait,
    pub(crate) since: u64,
}

/// How many values the event has, where it is present.
pub(crate) fn count(counts: &[Option<usize>], event: EventId) -> Option<usize>
    ensures { result ≡ count_in counts.now event }
{
    match counts.get(event.0 as usize) {
        Some(count) => *count,
        None => None,
    }
}

/// Whether one of the events is present.
fn has_any(events: &[EventId], counts: &[Option<usize>]) -> bool
    ensures { result ≡ is_any_counted events.now (count_in counts.now) }
{
    match events {
        [] => false,
        [event, events @ ..] => count(counts, *event).is_some() || has_any(events, counts),
    }
}

/// Whether the event has a value with this index.
fn is_index(at: i64, event: EventId, counts: &[Option<usize>]) -> bool
    ensures { result ≡ is_index_of at (unwrap_or (count_in counts.now event) 0) }
{
    match count(counts, event) {
        Some(count) => at >= 0 && (at as u64) < count as u64,
        None => false,
    }
}

/// Whether a number is 0, so many closes after it was entered.
fn is_out(left: i64, age: u64) -> bool
    ensures { result ≡ is_zero (lowered_by age left) }
{
    left >= 0 && left as u64 <= age
}

/// The same where there is a number.
fn ran_out(left: Option<i64>, age: u64) -> bool
    ensures { result ≡ ran_out_at (option_map (lowered_by age) left) }
{
    match left {
        Some(left) => is_out(left, age),
        None => false,
    }
}

/// A number, so many closes after it was entered.
fn lowered(left: i64, age: u64) -> i64
    ensures { result ≡ lowered_by age left }
{
    if left < 0 {
        left
    } else {
        (left as u64).saturating_sub(age) as i64
    }
}

/// The same where there is a number.
fn lowered_if(left: Option<i64>, age: u64) -> Option<i64>
    ensures { result ≡ option_map (lowered_by age) left }
{
    match left {
        Some(left) => Some(lowered(left, age)),
        None => None,
    }
}

/// Whether what it waits for is there, so many closes after it was entered.
fn is_over(wait: &Wait, age: u64, counts: &[Option<usize>], ended: &Ended) -> bool
    ensures { result ≡ is_over_with (aged age wait.now) (count_in counts.now) ended.now }
{
    match wait {
        Wait::New => true,
        Wait::Coop(left) => is_out(*left, age),
        Wait::Events { events, left } => ran_out(*left, age) || has_any(events.as_slice(), counts),
        Wait::Index { event, at } => age != 0 || is_index(*at, *event, counts),
        Wait::Next => true,
        Wait::Join { thread, left } => ran_out(*left, age) || ended.contains(*thread),
        Wait::Halt => false,
    }
}

/// A wait as it is so many closes later.
fn age_wait(wait: &mut Wait, age: u64)
    ensures { wait.new ≡ aged age wait.old }
{
    match wait {
        Wait::New => {}
        Wait::Coop(left) => *left = lowered(*left, age),
        Wait::Events { events: _, left } => *left = lowered_if(*left, age),
        Wait::Index { event: _, at: _ } => {
            if age != 0 {
                *wait = Wait::Next;
            }
        }
        Wait::Next => {}
        Wait::Join { thread: _, left } => *left = lowered_if(*left, age),
        Wait::Halt => {}
    }
}

/// Whether a wait ends by itself.
pub(crate) fn ends_alone(wait: &Wait) -> bool
    ensures { result ≡ ends_alone_of wait.now }
{
    match wait {
        Wait::New => true,
        Wait::Coop(_) => true,
        Wait::Events { events: _, left } => left.is_some(),
        Wait::Index { event: _, at: _ } => true,
        Wait::Next => true,
        Wait::Join { thread: _, left } => left.is_some(),
        Wait::Halt => false,
    }
}

impl Entry {
    /// The wait as it is, as so many instants have closed.
    pub(crate) fn into_wait(self, clock: u64) -> Wait
        requires { self.since ≤ clock }
        ensures { result ≡ wait_now clock self }
    {
        let Entry { mut wait, since } = self;
        age_wait(&mut wait, clock - since);
        wait
    }

    /// A copy of the wait as it is, as so many instants have closed.
    pub(crate) fn wait(&self, alloc: Global, clock: u64) -> Result<Wait, NoMemory>
        requires { self.now.since ≤ clock }
        ensures { IfOk result (λ w. w ≡ wait_now clock self.now) }
    {
        let mut wait = self.wait.try_clone(alloc)?;
        age_wait(&mut wait, clock - self.since);
        Ok(wait)
    }

    /// Whether what it waits for is there, as so many instants have closed.
    pub(crate) fn is_over(&self, clock: u64, counts: &[Option<usize>], ended: &Ended) -> bool
        requires { self.now.since ≤ clock }
        ensures { result ≡ is_over_with (wait_now clock self.now) (count_in counts.now) ended.now }
    {
        is_over(&self.wait, clock - self.since, counts, ended)
    }

    /// The number left, where it has one.
    pub(crate) fn left(&self, clock: u64) -> Option<i64>
        requires { self.now.since ≤ clock }
        ensures { result ≡ number_left (wait_now clock self.now) }
    {
        let age = clock - self.since;
        match &self.wait {
            Wait::Coop(left) => Some(lowered(*left, age)),
            Wait::Events { events: _, left } | Wait::Join { thread: _, left } => lowered_if(
                *left, age,
            ),
            Wait::New | Wait::Index { event: _, at: _ } | Wait::Next | Wait::Halt => None,
        }
    }

    /// Whether it is for a value that did not come.
    pub(crate) fn is_next(&self, clock: u64) -> bool
        requires { self.now.since ≤ clock }
        ensures { result ≡ is_next (wait_now clock self.now) }
    {
        match &self.wait {
            Wait::Index { event: _, at: _ } => self.since < clock,
            Wait::Next => true,
            _ => false,
        }
    }
}
