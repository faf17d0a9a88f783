//! Threads that stand in a program.

ghost use Rattle.std.specs.Prelude.{◌↔◌, IsTrue, reverse};
ghost use Rattle.loft_sense.specs.Stands.{OuterStand, FramesStand, Stands};
ghost use Rattle.loft_standing.specs.Stops.{tree_of};

use crate::frame::{frame_calls, frame_waits};
use loft_base::ModuleId;
use loft_orders::{Frame, Thread, Wait};
use loft_sense::MAX_FRAMES;
use loft_tree::{NamedProgram, Place};

/// Whether each of the outer frames, the outermost first, stands at a `run` of the module of the next one inwards, and the
/// last at one of this module.
fn outer_stand(program: &NamedProgram, called: ModuleId, frames: &[Frame]) -> bool
    ensures { IsTrue result ↔ OuterStand (tree_of program.now) called (reverse frames.now) }
{
    match frames {
        [] => true,
        [outer @ .., frame] => {
            frame_calls(program, called, frame) && outer_stand(program, frame.module, outer)
        }
    }
}

/// Whether the innermost frame stands at a stop with this wait, after which the thread is at the place, and the outer ones
/// at `run`s.
fn frames_stand(program: &NamedProgram, wait: &Wait, place: Place, frames: &[Frame]) -> bool
    ensures { IsTrue result ↔ FramesStand (tree_of program.now) wait.now place (reverse frames.now) }
{
    match frames {
        [] => false,
        [outer @ .., frame] => {
            frame_waits(program, frame, wait, place) && outer_stand(program, frame.module, outer)
        }
    }
}

/// Whether the thread stands in the program, and is at the place (docs/SEMANTICS.md, "Stands"). It takes no memory.
pub fn stands(program: &NamedProgram, thread: &Thread, place: Place) -> bool
    ensures { IsTrue result ↔ Stands (tree_of program.now) thread.now place }
{
    thread.frames.len() <= MAX_FRAMES
        && frames_stand(program, &thread.wait, place, thread.frames.as_slice())
}
