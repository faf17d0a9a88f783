//! Frames that run (docs/SEMANTICS.md, "Run").

ghost use Rattle.std.specs.Prelude.{◌≡◌, IfOk, map};
ghost use Rattle.std.specs.Option.{option_map};
ghost use Rattle.loft_tree.specs.Resolved.{target_of as variable_of};
ghost use Rattle.loft_code.specs.View.{automata_of};
ghost use Rattle.loft_code.specs.Operations.{Automata};
ghost use Rattle.loft_sense.specs.Around.{Beside};
ghost use Rattle.loft_sense.specs.Code.{code as control_of, lines_at, pause_in};
ghost use Rattle.loft_sense.specs.Run.{active_of, begun_frame, frame_of};
ghost use Rattle.loft_sense.specs.Statements.{target_of};
ghost use Rattle.loft_step.specs.Kept.{settled, IsKept};

use crate::jump::{Resumed, lines_of, resume};
use loft_base::{ModuleId, NoMemory, Sequence, ThreadId, Values};
use loft_code::Code;
use loft_effect::{Scope, first_values};
use loft_orders::{At, Counts, Frame};
use loft_tree::Target;
use std::alloc::Global;

/// A frame that runs: the counts of its `repeat`s from the outside in, and the number of the operation at which it goes on.
#[derive(Drop)]
pub struct Running {
    pub scope: Scope,
    pub counts: Counts,
    pub op: usize,
}

/// A frame that has stood at no stop has no counts.
fn settle(frame: &mut Frame)
    ensures { frame.new ≡ settled frame.old }
{
    if frame.stop == 0 {
        frame.counts.clear();
    }
}

/// The same of all frames.
pub fn settle_all(frames: &mut [Frame])
    ensures { frames.new ≡ map settled frames.old }
{
    for frame in frames.iter_mut() {
        settle(frame);
    }
}

impl Running {
    ghost use Rattle.loft_step.specs.Frames.{active};

    /// A module's new frame.
    pub fn begin(
        alloc: Global,
        code: &Code,
        thread: ThreadId,
        module: ModuleId,
        arguments: Values,
    ) -> Result<Running, NoMemory>
        ensures { IfOk result (λ r. (b : Beside) → b.id ≡ thread
            → active r ≡ begun_frame (control_of (automata_of code.now)) «module» arguments b) }
    {
        let values = first_values(code.heads(), thread, module, arguments)?;
        let at = At { module, stop: 0 };
        Ok(Running {
            scope: Scope { at, values },
            counts: Sequence::new(alloc),
            op: 0,
        })
    }

    /// The frame as it is kept while its thread stands.
    pub fn keep(self) -> Frame
        ensures { (c : Automata) → result ≡ frame_of (control_of c) (active self) }
    {
        let Running {
            scope,
            counts,
            op: _,
        } = self;
        let Scope { at, values } = scope;
        Frame {
            module: at.module,
            stop: at.stop,
            counts,
            values,
        }
    }

    /// A frame that goes on where it stood, and the variable that its stop sets, where it is a `get`.
    #[inline(always)]
    pub fn wake(code: &Code, frame: Frame) -> (Running, Option<Target>)
        requires { IsKept frame }
        ensures frame { active result.0 ≡ active_of (control_of (automata_of code.now)) frame }
        ensures target { option_map variable_of result.1
            ≡ target_of (pause_in (lines_at (automata_of code.now) frame.«module») frame.stop) }
    {
        let Frame {
            module,
            stop,
            counts,
            values,
        } = frame;
        let Resumed { op, target } = resume(lines_of(code, module), stop);
        let at = At { module, stop };
        let scope = Scope { at, values };
        (Running { scope, counts, op }, target)
    }
}
