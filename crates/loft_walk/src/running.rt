//! Frames that run (docs/SEMANTICS.md, "Run").

ghost use Rattle.std.specs.Prelude.{◌≡◌, IfOk, reverse, Some};
ghost use Rattle.std.specs.Option.{option_map};
ghost use Rattle.loft_tree.specs.NamedView.{pause_of as named_pause_of};
ghost use Rattle.loft_tree.specs.ProgramView.{program_of};
ghost use Rattle.loft_tree.specs.Resolved.{Resolved, resolved_of, target_of as variable_of, pause_of};
ghost use Rattle.loft_sense.specs.Around.{Beside};
ghost use Rattle.loft_sense.specs.Run.{active_of, begun_frame, frame_of};
ghost use Rattle.loft_sense.specs.Statements.{target_of};
ghost use Rattle.loft_sense.specs.Tree.{tree, body_at, counts_in as counts_of, pause_of_step, pause_at};
ghost use Rattle.loft_walk.specs.Pieces.{work_of, work_after, pause_after, body_from, step_from};

use crate::resume::find_in_body;
use crate::work::Piece;
use loft_base::{ModuleId, NoMemory, Sequence, ThreadId, Values};
use loft_effect::{Scope, first_values};
use loft_orders::{At, Counts, Frame};
use loft_tree::{NamedProgram, NamedStmt, Pause, Target};
use std::alloc::Global;

/// A frame that runs, and the work that is left in it.
#[derive(Drop)]
pub struct Running<'a> {
    pub scope: Scope,
    pub work: Vec<Piece<'a>>,
}

/// The statements of a module, none where there is no such module.
pub fn body(program: &NamedProgram, id: ModuleId) -> &[NamedStmt]
    ensures { body_from result.now ≡ body_at (resolved_of (program_of program.now)) id }
{
    match program.modules.as_slice().get(id.0 as usize) {
        Some(module) => module.body.as_slice(),
        None => &[],
    }
}

/// The variable that a pause sets, where it is a `get`.
fn target_of_pause(pause: &Pause) -> Option<Target>
    ensures { option_map variable_of result ≡ target_of (Some (pause_of (named_pause_of pause.now))) }
{
    match pause {
        Pause::Get { target, .. } => Some(*target),
        Pause::Cooperate { .. }
        | Pause::Await { .. }
        | Pause::Join { .. }
        | Pause::Link(_)
        | Pause::Unlink
        | Pause::Halt => None,
    }
}

/// The variable that a stop sets, where it is a `get`.
#[tactic(auto, using(loft_tree::proofs::NamedTrees::named_statements))]
fn target_of(stop: &NamedStmt) -> Option<Target>
    ensures { option_map variable_of result ≡ target_of (pause_of_step (Some (step_from stop.now))) }
{
    match stop {
        NamedStmt::Hold { pause, .. } => target_of_pause(pause),
        NamedStmt::Do { .. }
        | NamedStmt::Run { .. }
        | NamedStmt::If { .. }
        | NamedStmt::While { .. }
        | NamedStmt::Repeat { .. } => None,
    }
}

/// Where a frame goes on: the work that is left after its stop, and the variable that the stop sets.
#[derive(Drop)]
pub struct Resumed<'a> {
    pub work: Vec<Piece<'a>>,
    pub target: Option<Target>,
}

/// Where a frame goes on that has stood at stop k of this body; its begin counts as stop 0.
fn resume<'a>(
    alloc: Global,
    body: &'a [NamedStmt],
    k: u32,
    counts: &[i64],
) -> Result<Resumed<'a>, NoMemory>
    ensures work { IfOk result (λ r. work_of r.work.items ≡ work_after (body_from body.now) k counts.now) }
    ensures target { IfOk result (λ r. option_map variable_of r.target ≡ target_of (pause_after (body_from body.now) k)) }
{
    let mut work = Vec::new(alloc);
    if k == 0 {
        work.push(Piece::Rest(body))?;
        return Ok(Resumed { work, target: None });
    }
    let found = find_in_body(body, k, counts, &mut work)?;
    let target = match found {
        Some(stop) => target_of(stop),
        None => None,
    };
    Ok(Resumed { work, target })
}

/// The counts of the `repeat`s that are left, from the outside in.
fn counts_in(alloc: Global, work: &[Piece<'_>]) -> Result<Counts, NoMemory>
    ensures { IfOk result (λ counts. counts ≡ reverse (counts_of (work_of work.now))) }
{
    let mut counts = Sequence::new(alloc);
    for piece in work {
        match piece {
            Piece::Turns(count, _) => counts.push(*count)?,
            Piece::Rest(_) => {}
            Piece::Again(_, _) => {}
        }
    }
    Ok(counts)
}

impl<'a> Running<'a> {
    ghost use Rattle.loft_walk.specs.Frames.{active};

    /// A module's new frame.
    pub fn begin(
        alloc: Global,
        program: &'a NamedProgram,
        thread: ThreadId,
        module: ModuleId,
        arguments: Values,
    ) -> Result<Running<'a>, NoMemory>
        ensures { IfOk result (λ r. (b : Beside) → b.id ≡ thread
            → active r ≡ begun_frame (tree (resolved_of (program_of program.now))) «module» arguments b) }
    {
        let mut work = Vec::new(alloc);
        work.push(Piece::Rest(body(program, module)))?;
        let values = first_values(&program.heads, thread, module, arguments)?;
        let at = At { module, stop: 0 };
        Ok(Running {
            scope: Scope { at, values },
            work,
        })
    }

    /// The frame as it is kept while its thread stands.
    pub fn keep(self, alloc: Global) -> Result<Frame, NoMemory>
        ensures { IfOk result (λ f. (p : Resolved) → f ≡ frame_of (tree p) (active self.entry)) }
    {
        let Running { scope, work } = self;
        let Scope { at, values } = scope;
        Ok(Frame {
            module: at.module,
            stop: at.stop,
            counts: counts_in(alloc, work.as_slice())?,
            values,
        })
    }

    /// A frame that goes on where it stood, and the variable that its stop sets, where it is a `get`.
    pub fn wake(
        alloc: Global,
        program: &'a NamedProgram,
        frame: Frame,
    ) -> Result<(Running<'a>, Option<Target>), NoMemory>
        ensures frame { IfOk result (λ woken. active woken.0 ≡ active_of (tree (resolved_of (program_of program.now))) frame) }
        ensures target { IfOk result (λ woken. option_map variable_of woken.1
            ≡ target_of (pause_at (resolved_of (program_of program.now)) frame.«module» frame.stop)) }
    {
        let Frame {
            module,
            stop,
            counts,
            values,
        } = frame;
        let Resumed { work, target } = resume(
            alloc,
            body(program, module),
            stop,
            counts.as_slice(),
        )?;
        let at = At { module, stop };
        let scope = Scope { at, values };
        Ok((Running { scope, work }, target))
    }
}
