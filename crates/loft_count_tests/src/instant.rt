//! What an instant adds to the count.

ghost use Rattle.std.specs.Prelude.{◌≡◌, All};
ghost use Rattle.loft_code.specs.View.{automata_of};
ghost use Rattle.loft_engine.specs.CodeEngine.{code_of, scheduler_of};
ghost use Rattle.loft_sense.specs.Fits.{Fits};
ghost use Rattle.loft_sense.specs.Machine.{Code as ByCode};

use crate::batch::{Newcomers, batch_of};
use loft_base::SchedId;
use loft_code::Code;
use loft_count::Steps;
use loft_engine::CodeEngine;
use loft_orders::Orders;
use loft_sense::Engine;
use std::alloc::Global;
use std::sync::ledger::Ledger;

/// What an instant on this batch adds to the count. None where the bounds are used up, or memory ran out.
fn counted<L: Ledger>(
    alloc: Global,
    engine: &mut CodeEngine,
    steps: &mut Steps<L>,
    batch: &Orders,
) -> Option<u64>
    requires fits { All (Fits (code_of engine.old) (scheduler_of engine.old)) batch.now }
    ensures program { code_of engine.new ≡ code_of engine.old }
    ensures scheduler { scheduler_of engine.new ≡ scheduler_of engine.old }
{
    if engine.spent() {
        return None;
    }
    let before = steps.made();
    match engine.take_counted(alloc, batch, steps) {
        Ok(_note) => Some(steps.made().wrapping_sub(before)),
        Err(_) => None,
    }
}

/// What an instant in which these threads come adds to the count. None where it isn't made.
pub(crate) fn added<L: Ledger>(
    alloc: Global,
    code: &Code,
    scheduler: SchedId,
    engine: &mut CodeEngine,
    steps: &mut Steps<L>,
    come: Newcomers,
) -> Option<u64>
    requires program { code_of engine.old ≡ ByCode (automata_of code.now) }
    requires scheduler { scheduler_of engine.old ≡ scheduler }
    ensures program { code_of engine.new ≡ ByCode (automata_of code.now) }
    ensures scheduler { scheduler_of engine.new ≡ scheduler }
{
    let batch = batch_of(alloc, code, scheduler, come)?;
    counted(alloc, engine, steps, &batch)
}
