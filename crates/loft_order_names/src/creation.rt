//! Threads that orders make.

ghost use Rattle.std.specs.Prelude.{◌↔◌, IsTrue};
ghost use Rattle.loft_tree.specs.Fits.{Each};
ghost use Rattle.loft_tree.specs.HeadsFit.{HeadsFit};
ghost use Rattle.loft_sense.specs.Fits.{IsThread, IsValue};

use crate::thread::{are_values, is_thread};
use loft_base::{ModuleId, SchedId, ThreadId, Value};
use loft_tree::Heads;

/// Whether the scheduler may be asked to make the thread: a maker of the program may have made it, a thread of the module
/// can begin in the scheduler with these arguments, and the threads among them are declared (docs/SEMANTICS.md, "Fits").
pub fn creation_fits(
    heads: &Heads,
    scheduler: SchedId,
    thread: ThreadId,
    module: ModuleId,
    args: &[Value],
) -> bool
    ensures { IsTrue result ↔ (IsThread heads.now thread × HeadsFit heads.now scheduler «module» args.now × Each (IsValue heads.now) args.now) }
{
    is_thread(heads, thread) && heads.fits(scheduler, module, args) && are_values(heads, args)
}
