//! Batches that make threads.

ghost use Rattle.std.specs.Prelude.{All, IfSome};
ghost use Rattle.loft_code.specs.View.{automata_of};
ghost use Rattle.loft_sense.specs.Fits.{Fits};
ghost use Rattle.loft_sense.specs.Machine.{Code as ByCode};

use loft_base::{Maker, ModuleId, SchedId, Sequence, ThreadId};
use loft_code::Code;
use loft_order_names::creation_fits;
use loft_orders::{Order, Orders, SharedValues};
use std::alloc::Global;

/// The threads that come in an instant: so many of module 0, with numbers from the first on, and then so many of module 1.
#[derive(Clone, Copy)]
pub(crate) struct Newcomers {
    pub first: u64,
    pub waiting: u64,
    pub running: u64,
}

/// Adds orders to a batch of the scheduler that make threads of a module, with numbers from the first on. None where the module
/// has parameters, or memory ran out.
fn create(
    alloc: Global,
    code: &Code,
    scheduler: SchedId,
    batch: &mut Orders,
    module: ModuleId,
    first: u64,
    count: u64,
) -> Option<()>
    requires { All (Fits (ByCode (automata_of code.now)) scheduler) batch.old }
    ensures { IfSome result (λ done. All (Fits (ByCode (automata_of code.now)) scheduler) batch.new) }
{
    'threads: for k in 0..count {
        let thread = ThreadId {
            maker: Maker::Source,
            seq: first.wrapping_add(k),
        };
        if !creation_fits(&code.program().heads, scheduler, thread, module, &[]) {
            return None;
        }
        let args = SharedValues::from_slice(alloc, &[]).ok()?;
        let order = Order::Create {
            thread,
            module,
            args,
        };
        batch.push(order).ok()?;
    }
    Some(())
}

/// The batch of the scheduler that makes them. None where a module has parameters, or memory ran out.
pub(crate) fn batch_of(
    alloc: Global,
    code: &Code,
    scheduler: SchedId,
    come: Newcomers,
) -> Option<Orders>
    ensures { IfSome result (λ batch. All (Fits (ByCode (automata_of code.now)) scheduler) batch) }
{
    let Newcomers {
        first,
        waiting,
        running,
    } = come;
    let last = first.wrapping_add(waiting);
    let mut batch = Sequence::new(alloc);
    create(
        alloc,
        code,
        scheduler,
        &mut batch,
        ModuleId(0),
        first,
        waiting,
    )?;
    create(
        alloc,
        code,
        scheduler,
        &mut batch,
        ModuleId(1),
        last,
        running,
    )?;
    Some(batch)
}
