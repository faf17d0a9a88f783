//! Orders that a client may give.

ghost use Rattle.std.specs.Prelude.{◌<◌, length, IfOk};
ghost use Rattle.std.specs.List.{All};
ghost use Rattle.loft_sense.specs.Heads.{home};
ghost use Rattle.loft_tree.specs.NamedFits.{IsScheduler};
ghost use Rattle.loft_relay.specs.Gives.{IsOrder};

use loft_base::{EventId, NoMemory, Sequence};
use loft_code::Code;
use loft_orders::{Order, Sent, Sents, To};
use std::alloc::Global;

/// Broadcasts of a declared event, one with each of these values, to the scheduler of the event.
pub fn broadcasts(alloc: Global, code: &Code, e: EventId, values: &[i64]) -> Result<Sents, NoMemory>
    requires event { e.0 < length code.now.heads.events }
    requires home { IsScheduler code.now.heads (home code.now.heads e) }
    ensures { IfOk result (λ sents. All (IsOrder code.now) sents) }
{
    let home = code.heads().events[e.0 as usize].scheduler;
    let mut sents = Sequence::new(alloc);
    for value in values {
        sents.push(Sent {
            to: To::Sched(home),
            order: Order::Broadcast {
                event: e,
                value: Some(*value),
            },
        })?;
    }
    Ok(sents)
}
