//! A run goes on by a choice that is made by name.

ghost use Rattle.std.specs.Prelude.{◌≡◌, OnOk, IfOk};
ghost use Rattle.loft_sense.specs.Machine.{heads as heads_of};
ghost use Rattle.loft_course.specs.Course.{IsRun, CanRun};
ghost use Rattle.loft_replay.specs.Named.{meant, MovesBy};

use crate::names::{client_named, scheduler_named};
use loft_base::{NoMemory, SchedId};
use loft_course::{BlockEngine, Course, Setting};
use loft_report_shape::Choice;
use loft_sense::Engine;
use loft_tree::Heads;
use std::alloc::Global;

/// Goes on by a choice, where it is allowed. Answers whether it was.
pub(crate) fn choose<X: Setting, E: Engine, B: BlockEngine>(
    alloc: Global,
    heads: &Heads,
    course: &mut Course<X, E, B>,
    choice: &Choice,
) -> Result<bool, NoMemory>
    requires run { IsRun X.program X.options course.old }
    requires can { CanRun X.program X.options }
    requires heads { heads.now ≡ heads_of X.program }
    ensures run { OnOk result (IsRun X.program X.options course.new) }
    ensures moves { IfOk result (λ moved. MovesBy X.program X.options course.old.world.history
        (meant (heads_of X.program) choice.now) moved course.new.world.history) }
{
    match choice {
        Choice::Take(name) => match scheduler_named(heads, name) {
            Some(index) => course.take(alloc, SchedId(index as u32)),
            None => Ok(false),
        },
        Choice::Give(name) => match scheduler_named(heads, name) {
            Some(index) => course.give(alloc, SchedId(index as u32)),
            None => Ok(false),
        },
        Choice::Pick(w) => course.pick(alloc, *w),
        Choice::Post(w) => course.post(alloc, *w),
        Choice::Client(name) => match client_named(heads, name) {
            Some(index) => course.client(alloc, heads, index as u32),
            None => Ok(false),
        },
    }
}
