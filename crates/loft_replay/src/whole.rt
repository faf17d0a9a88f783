//! Whole histories of lists of choices.

ghost use Rattle.std.specs.Prelude.{◌≡◌, [], IfOk, IfErr};
ghost use Rattle.loft_tree.specs.ProgramView.{program_of};
ghost use Rattle.loft_tree.specs.Resolved.{resolved_of};
ghost use Rattle.loft_sense.specs.Machine.{Tree, heads as heads_of};
ghost use Rattle.loft_base.specs.Options.{IsInRange, HasWorkers};
ghost use Rattle.loft_history.specs.History.{HasEnded};
ghost use Rattle.loft_course.specs.Course.{IsRun, CanRun};
ghost use Rattle.loft_replay.specs.Named.{IsFollowed};
ghost use Rattle.loft_replay.specs.Whole.{IsNotWhole};

use crate::ended::goes_on;
use crate::plain::{stations, workers};
use crate::replay::{FollowError, Replayed, choose_all};
use loft_base::RunOptions;
use loft_course::{BlockEngine, Course, Setting, well_formed_programs_can_run};
use loft_place::Placed;
use loft_report_shape::Choices;
use loft_sense::Engine;
use loft_tree::Heads;
use std::alloc::Global;
use std::marker::Brand;

/// Goes on by all choices to the end of a history, to what that leaves.
fn follow_to_end<X: Setting, E: Engine, B: BlockEngine>(
    alloc: Global,
    heads: &Heads,
    mut course: Course<X, E, B>,
    c: &Choices,
    workers: u32,
) -> Result<Replayed, FollowError>
    requires run { IsRun X.program X.options course }
    requires start { course.world.history ≡ [] }
    requires can { CanRun X.program X.options }
    requires heads { heads.now ≡ heads_of X.program }
    requires workers { workers ≡ X.options.workers }
    ensures followed { IfOk result (λ r. IsFollowed X.program X.options c.now r) }
    ensures ended { IfOk result (λ r. HasEnded X.program X.options r.world.history) }
    ensures refused { IfErr result (IsNotWhole X.program X.options c.now) }
{
    choose_all(alloc, heads, &mut course, c)?;
    if goes_on(alloc, heads, &mut course, workers)? {
        return Err(FollowError::NotAllowed {
            entry: c.as_slice().len() as u64 + 1,
        });
    }
    Ok(course.finish(alloc)?)
}

/// The whole history in a setting.
fn follow_whole_in<X: Setting>(
    alloc: Global,
    p: &Placed,
    o: &RunOptions,
    c: &Choices,
) -> Result<Replayed, FollowError>
    requires program { X.program ≡ Tree (resolved_of (program_of p.now)) }
    requires options { X.options ≡ o.now }
    requires range { IsInRange o.now.limits }
    requires workers { HasWorkers o.now }
    ensures followed { IfOk result (λ r. IsFollowed X.program X.options c.now r) }
    ensures ended { IfOk result (λ r. HasEnded X.program X.options r.world.history) }
    ensures refused { IfErr result (IsNotWhole X.program X.options c.now) }
{
    well_formed_programs_can_run();
    let heads = &p.program().heads;
    let stations = stations::<X>(alloc, p, o)?;
    let workers = workers::<X>(alloc, p, o)?;
    let course = Course::new(alloc, heads, stations, workers)?;
    follow_to_end(alloc, heads, course, c, o.workers)
}

/// The history of a list of choices of a placed program that ends by them, within bounds and with workers that are in
/// their ranges (docs/SEMANTICS.md, "Choices by name"): Ok exactly where there is one, unless it is out of memory.
///
/// # Errors
///
/// `NotAllowed` names the first choice that isn't allowed, an undeclared name among them, or the one after the last
/// where the history hasn't ended. Out of memory.
pub fn follow_whole(
    alloc: Global,
    p: &Placed,
    o: &RunOptions,
    c: &Choices,
) -> Result<Replayed, FollowError>
    requires range { IsInRange o.now.limits }
    requires workers { HasWorkers o.now }
    ensures followed { IfOk result (λ r.
        IsFollowed (Tree (resolved_of (program_of p.now))) o.now c.now r) }
    ensures ended { IfOk result (λ r.
        HasEnded (Tree (resolved_of (program_of p.now))) o.now r.world.history) }
    ensures refused { IfErr result
        (IsNotWhole (Tree (resolved_of (program_of p.now))) o.now c.now) }
{
    follow_whole_in::<Brand>(alloc, p, o, c)
}
