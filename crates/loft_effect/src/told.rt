//! What acts send (docs/SEMANTICS.md, "Instant" and "Unlinked blocks").

ghost use Rattle.std.specs.Prelude.{◌≡◌, ◌++◌, [], ◌∷◌, OnOk};
ghost use Rattle.loft_sense.specs.Apply.{told, tell_end as tell_end_of};
ghost use Rattle.loft_sense.specs.Instant.{sent_by};

use loft_base::{NoMemory, ThreadId, TryClone};
use loft_orders::{Act, End, Order, Sent, Sents, To};
use loft_tree::Place;
use std::alloc::Global;

/// Who learns of the end of a thread: of one in a scheduler the other schedulers, of an unlinked one all.
fn told(place: Place) -> To
    ensures { result ≡ told place }
{
    match place {
        Place::Sched(scheduler) => To::Others(scheduler),
        Place::Unlinked => To::All,
    }
}

/// The order by which schedulers learn of the end of a thread at this place.
pub fn tell_end(place: Place, thread: ThreadId, end: End) -> Sent
    ensures { result ≡ tell_end_of place thread end }
{
    Sent {
        to: told(place),
        order: Order::Ended { thread, end },
    }
}

/// Adds what one act at this place sends.
fn tell_act(alloc: Global, place: Place, sent: &mut Sents, act: &Act) -> Result<(), NoMemory>
    ensures { OnOk result (sent.new ≡ sent.old ++ sent_by place (act.now ∷ [])) }
{
    match act {
        Act::Print { thread: _, line: _ } => Ok(()),
        Act::Gen {
            thread: _,
            event: _,
            value: _,
        } => Ok(()),
        Act::Out {
            thread: _,
            sent: boxed,
        } => sent.push(boxed.as_sent().try_clone(alloc)?),
        Act::End { thread, end } => sent.push(tell_end(place, *thread, *end)),
    }
}

/// Adds the orders among the acts at this place, and one for each end.
///
/// # Errors
///
/// Out of memory.
pub fn tell_all(alloc: Global, place: Place, sent: &mut Sents, acts: &[Act]) -> Result<(), NoMemory>
    ensures { OnOk result (sent.new ≡ sent.old ++ sent_by place acts.now) }
{
    for act in acts {
        tell_act(alloc, place, sent, act)?;
    }
    Ok(())
}
