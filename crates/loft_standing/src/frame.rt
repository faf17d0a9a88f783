//! Frames that stand at stops of a program.

ghost use Rattle.std.specs.Prelude.{◌≡◌, ◌↔◌, IsTrue};
ghost use Rattle.loft_sense.specs.Stands.{Calls, StopAt, WaitAgrees, FrameStands, FrameCalls};
ghost use Rattle.loft_standing.specs.Stops.{tree_of, kind_from, IsStanding};

use crate::search::find_stop;
use crate::slots::values_agree;
use crate::stop::{Kind, Stop};
use crate::wait::wait_agrees;
use loft_base::ModuleId;
use loft_orders::{Frame, Wait};
use loft_tree::{NamedProgram, Place};

/// The stop at which the frame stands, if it stands at one: there is such a stop, with a count for each `repeat` around
/// it, and the values agree with the module's parameters and local variables.
fn standing<'a>(program: &'a NamedProgram, frame: &Frame) -> Option<Stop<'a>>
    ensures { IsStanding (tree_of program.now) frame.now result }
{
    let stop = find_stop(program, frame.module, frame.stop)?;
    let is_counted = frame.counts.len() == stop.depth as usize;
    if is_counted && values_agree(&program.heads, frame.module, frame.values.as_slice()) {
        Some(stop)
    } else {
        None
    }
}

/// Whether the stop is a `run` of this module.
fn calls(stop: Kind<'_>, called: ModuleId) -> bool
    ensures { IsTrue result ↔ (kind_from stop.entry ≡ Calls called) }
{
    match stop {
        Kind::Run(module) => module == called,
        Kind::Begin | Kind::Pause(_) => false,
    }
}

/// Whether the frame stands at a `run` of this module (docs/SEMANTICS.md, "Stands").
pub fn frame_calls(program: &NamedProgram, called: ModuleId, frame: &Frame) -> bool
    ensures { IsTrue result ↔ FrameCalls (tree_of program.now) called frame.now }
{
    match standing(program, frame) {
        Some(stop) => calls(stop.kind, called),
        None => false,
    }
}

/// Whether the frame stands at a stop with this wait, after which the thread is at the place (docs/SEMANTICS.md, "Stands").
pub fn frame_waits(program: &NamedProgram, frame: &Frame, wait: &Wait, place: Place) -> bool
    ensures { IsTrue result ↔ ((at : StopAt) × FrameStands (tree_of program.now) frame.now at × WaitAgrees at.kind wait.now × (at.after ≡ place)) }
{
    match standing(program, frame) {
        Some(stop) => stop.after == place && wait_agrees(stop.kind, wait),
        None => false,
    }
}
