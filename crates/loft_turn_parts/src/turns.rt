//! The parts of a scheduler's turn (docs/SEMANTICS.md, "Turns"): it takes what waits, makes an instant
//! on that, and gives what the instant sent. The first and the last change the world, and the
//! instant needs none.

ghost use Rattle.std.specs.Prelude.{◌≡◌, [], ◌∷◌, ◌++◌, false, true, List, All, IfOk, OnOk, OnErr, MatchOption};
ghost use Rattle.loft_orders.specs.declared.entry.Entry.{Entry};
ghost use Rattle.loft_orders.specs.declared.entry.Entry.TheVariants as entry;
ghost use Rattle.loft_sense.specs.Fits.{Fits};
ghost use Rattle.loft_history.specs.History.{is_open, sent_last, waiting};
ghost use Rattle.loft_sense.specs.Instant.{instant};
ghost use Rattle.loft_sense.specs.Rest.{is_spent};
ghost use Rattle.loft_turn_parts.specs.Turns.{due, IsReplay};
ghost use Rattle.loft_tree.specs.NamedFits.{IsScheduler};
ghost use Rattle.loft_world.specs.State.{with_entry};

use loft_base::{NoMemory, SchedId, Sequence};
use loft_orders::Orders;
use loft_sense::Engine;
use loft_world::{NoteList, World};
use std::alloc::Global;

/// A scheduler takes what waits for it, where it has a turn to make on that: its bounds aren't used
/// up, and it doesn't rest where nothing waits. None where it has none; then no entry is added.
/// Where it is out of memory the world is as before.
pub fn take_where_due<E: Engine>(
    alloc: Global,
    engine: &E,
    s: SchedId,
    world: &mut World,
) -> Result<Option<Orders>, NoMemory>
    requires works { E.has_failed engine.now ≡ false }
    requires declared { IsScheduler world.old.heads s }
    requires closed { is_open s world.old.history ≡ false }
    ensures due { IfOk result (λ taken. taken ≡ due (E.program engine.now) (E.limits engine.now)
        (E.machine engine.now) (waiting world.old.heads s world.old.history)) }
    ensures entry { IfOk result (λ taken. MatchOption taken (world.new ≡ world.old)
        (λ batch. world.new ≡ with_entry world.old (entry.Take s batch))) }
    ensures err { OnErr result (world.new ≡ world.old) }
{
    if engine.spent() || (engine.resting() && world.left(s).is_empty()) {
        return Ok(None);
    }
    let batch = world.take(alloc, s)?;
    Ok(Some(batch))
}

/// Makes the instant on what a scheduler has taken, and adds its note to those of its instants before.
/// It takes long, and needs no world. Where the scheduler was as its entries say, it is as they and
/// the Take say. Out of memory, it makes no further turn.
pub fn make_instant<E: Engine>(
    alloc: Global,
    engine: &mut E,
    notes: &mut NoteList,
    batch: &Orders,
) -> Result<(), NoMemory>
    requires unspent { E.has_failed engine.old ≡ false
        → is_spent (E.program engine.old) (E.limits engine.old) (E.machine engine.old) ≡ false }
    requires fits { All (Fits (E.program engine.old) (E.scheduler engine.old)) batch.now }
    ensures machine { OnOk result (E.machine engine.new ≡ (instant (E.program engine.old)
        (E.limits engine.old) (E.machine engine.old) batch.now).machine) }
    ensures notes { OnOk result (notes.new ≡ notes.old ++ (instant (E.program engine.old)
        (E.limits engine.old) (E.machine engine.old) batch.now).note ∷ []) }
    ensures own { OnOk result ((es : List Entry) → IsReplay (E.program engine.old)
        (E.limits engine.old) (E.scheduler engine.old) es (E.machine engine.old) notes.old
        → IsReplay (E.program engine.new) (E.limits engine.new) (E.scheduler engine.new)
        (es ++ entry.Take (E.scheduler engine.new) batch.now ∷ [])
        (E.machine engine.new) notes.new) }
    ensures works { OnOk result ((E.has_failed engine.old ≡ false)
        × (E.has_failed engine.new ≡ false)) }
    ensures same_program { E.program engine.new ≡ E.program engine.old }
    ensures same_scheduler { E.scheduler engine.new ≡ E.scheduler engine.old }
    ensures same_limits { E.limits engine.new ≡ E.limits engine.old }
{
    let note = engine.take(alloc, batch)?;
    notes.push(note)
}

/// A scheduler gives what its last instant sent, which ends its turn. Where it is out of memory the
/// world is as before.
pub fn give_last(
    alloc: Global,
    s: SchedId,
    notes: &NoteList,
    world: &mut World,
) -> Result<(), NoMemory>
    requires declared { IsScheduler world.old.heads s }
    requires open { is_open s world.old.history ≡ true }
    ensures entry { OnOk result
        (world.new ≡ with_entry world.old (entry.Give s (sent_last notes.now))) }
    ensures err { OnErr result (world.new ≡ world.old) }
{
    match notes.as_slice().last() {
        Some(note) => world.give(alloc, s, &note.sent),
        None => world.give(alloc, s, &Sequence::new(alloc)),
    }
}
