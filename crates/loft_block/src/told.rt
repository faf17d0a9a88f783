//! What a run of an unlinked thread sends, and what stands around it (docs/SEMANTICS.md, "Unlinked blocks").

ghost use Rattle.std.specs.Prelude.{◌≡◌, ◌≤◌, ◌++◌, [], ◌∷◌, length, IfOk, OnOk};
ghost use Rattle.loft_tree.specs.declared.heads.Place.TheVariants.{Unlinked};
ghost use Rattle.loft_tree.specs.declared.limits.TheConstants.{MAX_EVENTS};
ghost use Rattle.loft_orders.specs.declared.order.Order.TheVariants.{Arrive};
ghost use Rattle.loft_sense.specs.Machine.{Prog, heads as heads_of};
ghost use Rattle.loft_sense.specs.Instant.{sent_by};
ghost use Rattle.loft_sense.specs.Async.{alone as alone_in, block_sent};
ghost use Rattle.loft_effect.specs.View.{around_of, steps_left};
ghost use Rattle.loft_effect.specs.Outcomes.{gone_of};

use loft_base::{NoMemory, Sequence};
use loft_board::Board;
use loft_effect::{Around, Gone, Outcome, tell_all};
use loft_ended::Ended;
use loft_orders::{Order, Sent, Sents, SharedThread, Thread, To};
use loft_tree::{Heads, Place};
use std::alloc::Global;

/// What stands around a thread that isn't linked and may make so many steps: no event is present.
pub fn alone(alloc: Global, heads: &Heads, block: u64) -> Result<Around, NoMemory>
    requires { length heads.now.events ≤ MAX_EVENTS }
    ensures alone { IfOk result (λ around. (x : Prog) → heads_of x ≡ heads.now
        → around_of around ≡ alone_in x) }
    ensures left { IfOk result (λ around. steps_left around ≡ block) }
{
    Ok(Around {
        place: Place::Unlinked,
        board: Board::new(alloc, heads.events.len() as u32)?,
        shared: Sequence::new(alloc),
        known: Ended::new(alloc),
        made: 0,
        entries: 0,
        steps: 0,
        bound: block,
        acts: Sequence::new(alloc),
    })
}

/// Adds what a run sends that leaves this around its thread.
fn tell_acts(alloc: Global, sent: &mut Sents, around: Around) -> Result<(), NoMemory>
    ensures { OnOk result (sent.new ≡ sent.old ++ sent_by Unlinked (around_of around).acts) }
{
    tell_all(alloc, Place::Unlinked, sent, around.acts.as_slice())
}

/// Adds the order that sends a thread on.
fn send_on(alloc: Global, sent: &mut Sents, thread: Thread, to: To) -> Result<(), NoMemory>
    ensures { OnOk result (sent.new ≡ sent.old ++ record { to = to; order = Arrive thread } ∷ []) }
{
    sent.push(Sent {
        to,
        order: Order::Arrive(SharedThread::new(alloc, thread)?),
    })
}

/// Adds what an unlinked thread sends whose run has stopped so.
pub fn tell_gone(alloc: Global, sent: &mut Sents, gone: Gone) -> Result<(), NoMemory>
    ensures { OnOk result (sent.new ≡ sent.old ++ block_sent (gone_of gone)) }
{
    let Gone { outcome, around } = gone;
    tell_acts(alloc, sent, around)?;
    match outcome {
        Outcome::Left(thread, to) => send_on(alloc, sent, thread, to),
        Outcome::Held(_) | Outcome::Ended(_) => Ok(()),
    }
}
