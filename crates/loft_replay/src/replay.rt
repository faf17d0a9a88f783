//! The history of a list of choices.

ghost use Rattle.std.specs.Prelude.{◌≡◌, [], IfOk, IfErr, OnOk, Ok, Err};
ghost use Rattle.loft_tree.specs.ProgramView.{program_of};
ghost use Rattle.loft_tree.specs.Resolved.{resolved_of};
ghost use Rattle.loft_sense.specs.Machine.{Tree, heads as heads_of};
ghost use Rattle.loft_base.specs.Options.{IsInRange};
ghost use Rattle.loft_base.specs.Options.{HasWorkers};
ghost use Rattle.loft_course.specs.Course.{IsRun, CanRun};
ghost use Rattle.loft_replay.specs.Named.{follows, IsFollowed, IsRefused};

use crate::choices::choose;
use crate::plain::{stations, workers};
use loft_base::{NoMemory, RunOptions};
use loft_course::{BlockEngine, Course, Setting, well_formed_programs_can_run};
use loft_place::Placed;
use loft_report_shape::Choices;
use loft_sense::Engine;
use loft_tree::Heads;
use loft_world::Finished;
use std::alloc::Global;
use std::marker::Brand;

/// What the replay of a history leaves: the world that has it, the notes of each scheduler's
/// instants, and how each scheduler stands at its end.
pub type Replayed = Finished;

/// Why choices aren't followed.
#[derive(Clone, Copy, Debug, PartialEq, Eq)]
pub enum FollowError {
    /// The choice of this number, counted from 1, isn't allowed.
    NotAllowed { entry: u64 },
    /// Out of memory.
    NoMemory,
}

impl From<NoMemory> for FollowError {
    ghost use Rattle.std.specs.Prelude.{◌≡◌};
    ghost use Rattle.loft_replay.specs.declared.replay.FollowError.TheVariants.{NoMemory as no_memory};

    ghost from_gives = { λ _ e. e ≡ no_memory };

    fn from(_error: NoMemory) -> FollowError {
        FollowError::NoMemory
    }
}

/// The run goes on by all choices.
pub(crate) fn choose_all<X: Setting, E: Engine, B: BlockEngine>(
    alloc: Global,
    heads: &Heads,
    course: &mut Course<X, E, B>,
    c: &Choices,
) -> Result<(), FollowError>
    requires run { IsRun X.program X.options course.old }
    requires start { course.old.world.history ≡ [] }
    requires can { CanRun X.program X.options }
    requires heads { heads.now ≡ heads_of X.program }
    ensures run { OnOk result (IsRun X.program X.options course.new) }
    ensures followed { OnOk result
        (follows X.program X.options c.now ≡ Ok course.new.world.history) }
    ensures refused { IfErr result (IsRefused X.program X.options c.now) }
{
    for (index, choice) in c.as_slice().iter().enumerate() {
        if !choose(alloc, heads, course, choice)? {
            return Err(FollowError::NotAllowed {
                entry: index as u64 + 1,
            });
        }
    }
    Ok(())
}

/// Goes on by all choices, to what that leaves.
fn follow_all<X: Setting, E: Engine, B: BlockEngine>(
    alloc: Global,
    heads: &Heads,
    mut course: Course<X, E, B>,
    c: &Choices,
) -> Result<Replayed, FollowError>
    requires run { IsRun X.program X.options course }
    requires start { course.world.history ≡ [] }
    requires can { CanRun X.program X.options }
    requires heads { heads.now ≡ heads_of X.program }
    ensures followed { IfOk result (λ r. IsFollowed X.program X.options c.now r) }
    ensures refused { IfErr result (IsRefused X.program X.options c.now) }
{
    choose_all(alloc, heads, &mut course, c)?;
    Ok(course.finish(alloc)?)
}

/// The history in a setting.
fn follow_in<X: Setting>(
    alloc: Global,
    p: &Placed,
    o: &RunOptions,
    c: &Choices,
) -> Result<Replayed, FollowError>
    requires program { X.program ≡ Tree (resolved_of (program_of p.now)) }
    requires options { X.options ≡ o.now }
    requires range { IsInRange o.now.limits }
    requires workers { HasWorkers o.now }
    ensures followed { IfOk result (λ r. IsFollowed X.program X.options c.now r) }
    ensures refused { IfErr result (IsRefused X.program X.options c.now) }
{
    well_formed_programs_can_run();
    let heads = &p.program().heads;
    let stations = stations::<X>(alloc, p, o)?;
    let workers = workers::<X>(alloc, p, o)?;
    let course = Course::new(alloc, heads, stations, workers)?;
    follow_all(alloc, heads, course, c)
}

/// The history of a list of choices of a placed program, within bounds and with workers that are in
/// their ranges (docs/SEMANTICS.md, "Choices by name"): Ok exactly where there is one, unless it is out
/// of memory. `NotAllowed` names the first choice that isn't allowed, an undeclared name among them.
pub fn follow(
    alloc: Global,
    p: &Placed,
    o: &RunOptions,
    c: &Choices,
) -> Result<Replayed, FollowError>
    requires range { IsInRange o.now.limits }
    requires workers { HasWorkers o.now }
    ensures followed { IfOk result (λ r.
        IsFollowed (Tree (resolved_of (program_of p.now))) o.now c.now r) }
    ensures refused { IfErr result
        (IsRefused (Tree (resolved_of (program_of p.now))) o.now c.now) }
{
    follow_in::<Brand>(alloc, p, o, c)
}
