//! The block of a scheduler, by the batches that another one prints.

ghost use Rattle.std.specs.Prelude.{◌≡◌, true, false, IfOk, OnOk};
ghost use Rattle.loft_base.specs.Options.{IsInRange};
ghost use Rattle.loft_orders.specs.Lines.{text_of};
ghost use Rattle.loft_sense.specs.Machine.{empty};
ghost use Rattle.loft_history.specs.Report.{final_lines};
ghost use Rattle.loft_standing.specs.Stops.{tree_of};
ghost use Rattle.loft_value_text.specs.Buffer.{Adds};
ghost use Rattle.loft_block_replay.specs.Outcomes.{Ends};

use crate::instants::replay_instants;
use loft_base::{Limits, NoMemory, SchedId, Sequence};
use loft_block_text::{push_block_start, push_final};
use loft_place::Placed;
use loft_plain::PlainEngine;
use loft_sense::Engine;
use loft_value_text::LineBuffer;
use std::alloc::Global;

/// What becomes of the instants of a block.
#[derive(Drop)]
pub enum Outcome {
    /// All may be made, and this is the block of the scheduler on their batches.
    Whole(Sequence<u8>),
    /// This is the first that may not be made, counted from 1.
    Stopped { entry: u64 },
}

/// The bytes of a text, if memory was enough for them.
fn bytes_of(text: LineBuffer) -> Result<Sequence<u8>, NoMemory>
    ensures whole { IfOk result (λ _. text.is_whole ≡ true) }
    ensures bytes { IfOk result (λ bytes. bytes ≡ text.text.items) }
{
    if text.is_whole {
        Ok(Sequence::from_vec(text.text))
    } else {
        Err(NoMemory)
    }
}

/// The text with how the scheduler stands in the end.
fn finish<E: Engine>(
    alloc: Global,
    p: &Placed,
    s: SchedId,
    engine: &E,
    text: &mut LineBuffer,
) -> Result<(), NoMemory>
    ensures { OnOk result (Adds text.old text.new (text_of (final_lines p.now.heads s
        (E.machine engine.now).linked (E.machine engine.now).shared))) }
{
    let last = engine.last(alloc)?;
    push_final(text, p.heads(), s, &last);
    Ok(())
}

/// Makes the instants of a block of the scheduler by an engine that has made none, and writes the block that they make.
fn replay_by<E: Engine>(
    alloc: Global,
    p: &Placed,
    s: SchedId,
    engine: &mut E,
    instants: &[Sequence<u8>],
) -> Result<Outcome, NoMemory>
    requires program { E.program engine.old ≡ tree_of p.now }
    requires scheduler { E.scheduler engine.old ≡ s }
    requires works { E.has_failed engine.old ≡ false }
    requires machine { E.machine engine.old ≡ empty (tree_of p.now) s }
    ensures { IfOk result (Ends (tree_of p.now) (E.limits engine.old) s instants.now) }
{
    let mut text = LineBuffer::new(alloc);
    push_block_start(&mut text, p.heads(), s);
    let stop = replay_instants(alloc, p, s, engine, &mut text, instants)?;
    match stop {
        Some(entry) => Ok(Outcome::Stopped { entry }),
        None => {
            finish(alloc, p, s, engine, &mut text)?;
            let bytes = bytes_of(text)?;
            Ok(Outcome::Whole(bytes))
        }
    }
}

/// Makes the instants of a block of the scheduler, and writes the block that they make.
pub fn replay_block(
    alloc: Global,
    p: &Placed,
    limits: Limits,
    s: SchedId,
    instants: &[Sequence<u8>],
) -> Result<Outcome, NoMemory>
    requires { IsInRange limits }
    ensures { IfOk result (Ends (tree_of p.now) limits s instants.now) }
{
    let mut engine = PlainEngine::new(alloc, p, s, limits)?;
    replay_by(alloc, p, s, &mut engine, instants)
}
