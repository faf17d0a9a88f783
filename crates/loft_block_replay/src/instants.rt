//! The instants of a block, one after the other.

ghost use Rattle.std.specs.Prelude.{◌≡◌, List, All, true, false, IfOk, IfSome, IfNone, OnOk};
ghost use Rattle.loft_orders.specs.declared.order.Order.{Order};
ghost use Rattle.loft_sense.specs.Fits.{Fits};
ghost use Rattle.loft_history.specs.History.{has_turn as has_turn_on};
ghost use Rattle.loft_standing.specs.Stops.{tree_of};
ghost use Rattle.loft_block_replay.specs.Block.{IsNext};
ghost use Rattle.loft_block_replay.specs.Made.{Turned, Made, AllMade, FailsFirstAt, KeepsRules};

use crate::batch::read_batch;
use loft_base::{NoMemory, SchedId, Sequence};
use loft_instant_text::push_instant;
use loft_orders::Orders;
use loft_place::Placed;
use loft_sense::Engine;
use loft_value_text::LineBuffer;
use std::alloc::Global;

/// Whether the scheduler makes an instant on this batch (docs/SEMANTICS.md, "Rest").
fn has_turn<E: Engine>(engine: &E, batch: &Orders) -> bool
    requires { E.has_failed engine.now ≡ false }
    ensures { result ≡ has_turn_on (E.program engine.now) (E.limits engine.now)
        (E.machine engine.now) batch.now }
{
    !engine.spent() && !(engine.resting() && batch.is_empty())
}

/// Makes an instant on the batch, and writes it, if the scheduler makes one.
fn take_turn<E: Engine>(
    alloc: Global,
    p: &Placed,
    engine: &mut E,
    text: &mut LineBuffer,
    batch: &Orders,
) -> Result<bool, NoMemory>
    requires program { E.program engine.old ≡ tree_of p.now }
    requires works { E.has_failed engine.old ≡ false }
    requires fits { All (Fits (E.program engine.old) (E.scheduler engine.old)) batch.now }
    ensures made { IfOk result (λ made. made ≡ true → Turned (tree_of p.now) (E.limits engine.old)
        (E.machine engine.old) (E.machine engine.new) batch.now text.old text.new) }
    ensures refused { IfOk result (λ made. made ≡ false
        → has_turn_on (tree_of p.now) (E.limits engine.old) (E.machine engine.old) batch.now ≡ false) }
    ensures works { OnOk result (E.has_failed engine.new ≡ false) }
    ensures rules { KeepsRules E.program E.scheduler E.limits engine.old engine.new }
{
    let is_due = has_turn(engine, batch);
    if !is_due {
        return Ok(false);
    }
    let note = engine.take(alloc, batch)?;
    push_instant(text, p.heads(), batch.as_slice(), &note);
    Ok(true)
}

/// Makes the instant of these lines, and writes it; false if the scheduler may not make it.
fn replay_instant<E: Engine>(
    alloc: Global,
    p: &Placed,
    s: SchedId,
    engine: &mut E,
    text: &mut LineBuffer,
    lines: &[u8],
) -> Result<bool, NoMemory>
    requires program { E.program engine.old ≡ tree_of p.now }
    requires scheduler { E.scheduler engine.old ≡ s }
    requires works { E.has_failed engine.old ≡ false }
    ensures made { IfOk result (λ made. made ≡ true → Made (tree_of p.now) (E.limits engine.old) s
        (E.machine engine.old) (E.machine engine.new) lines.now text.old text.new) }
    ensures refused { IfOk result (λ made. made ≡ false → (batch : List Order)
        → IsNext (tree_of p.now) (E.limits engine.old) s (E.machine engine.old) lines.now batch → ⊥) }
    ensures works { OnOk result (E.has_failed engine.new ≡ false) }
    ensures rules { KeepsRules E.program E.scheduler E.limits engine.old engine.new }
{
    match read_batch(alloc, p, s, lines)? {
        Some(batch) => take_turn(alloc, p, engine, text, &batch),
        None => Ok(false),
    }
}

/// Makes the instants of a block, and writes them; the number of the first that the scheduler may not make, from 1, if
/// there is one.
pub fn replay_instants<E: Engine>(
    alloc: Global,
    p: &Placed,
    s: SchedId,
    engine: &mut E,
    text: &mut LineBuffer,
    instants: &[Sequence<u8>],
) -> Result<Option<u64>, NoMemory>
    requires program { E.program engine.old ≡ tree_of p.now }
    requires scheduler { E.scheduler engine.old ≡ s }
    requires works { E.has_failed engine.old ≡ false }
    ensures made { IfOk result (λ stop. IfNone stop (AllMade (tree_of p.now) (E.limits engine.old) s
        (E.machine engine.old) (E.machine engine.new) instants.now text.old text.new)) }
    ensures stopped { IfOk result (λ stop. IfSome stop
        (FailsFirstAt (tree_of p.now) (E.limits engine.old) s (E.machine engine.old) instants.now)) }
    ensures works { OnOk result (E.has_failed engine.new ≡ false) }
{
    for index in 0..instants.len() {
        let lines = instants[index].as_slice();
        let made = replay_instant(alloc, p, s, engine, text, lines)?;
        if !made {
            return Ok(Some(index as u64 + 1));
        }
    }
    Ok(None)
}
