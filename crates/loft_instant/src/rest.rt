//! A scheduler between two instants (docs/SEMANTICS.md, "Rest").

ghost use Rattle.std.specs.Prelude.{◌≡◌, IfOk};
ghost use Rattle.loft_sense.specs.Rest.{waits_for_ever as waits_for_ever_in, all_rest as all_rest_in};
ghost use Rattle.loft_passes.specs.View.{standings_of};

use loft_base::{NoMemory, Sequence, TryClone};
use loft_ended::Ended;
use loft_orders::{Standing, Standings, Wait};
use loft_passes::Runner;
use std::alloc::Global;

/// Whether the wait has no number, and what it waits for isn't there; between two instants no event is present.
fn waits_for_ever(wait: &Wait, known: &Ended) -> bool
    ensures { result ≡ waits_for_ever_in wait.now known.now }
{
    match wait {
        Wait::New => false,
        Wait::Coop(_) => false,
        Wait::Events { events: _, left } => left.is_none(),
        Wait::Index { event: _, at: _ } => false,
        Wait::Next => false,
        Wait::Join { thread, left } => left.is_none() && !known.contains(*thread),
        Wait::Halt => true,
    }
}

/// Whether each linked thread is suspended or waits for ever.
pub fn all_rest(runners: &[Runner], known: &Ended) -> bool
    ensures { result ≡ all_rest_in (standings_of runners.now) known.now }
{
    for runner in runners {
        if !(runner.suspended || waits_for_ever(&runner.thread.wait, known)) {
            return false;
        }
    }
    true
}

/// The linked threads, as others see them.
pub fn standings(alloc: Global, runners: &[Runner]) -> Result<Standings, NoMemory>
    ensures { IfOk result (λ standings. standings ≡ standings_of runners.now) }
{
    let mut standings = Sequence::new(alloc);
    standings.reserve(runners.len())?;
    for runner in runners {
        standings.push(Standing {
            thread: runner.thread.try_clone(alloc)?,
            suspended: runner.suspended,
        })?;
    }
    Ok(standings)
}
