//! A thread walks its statements (docs/SEMANTICS.md, "Run").

ghost use Rattle.std.specs.Prelude.{◌≡◌, ◌≤◌, ◌<◌, ◌-◌, ℕ, true, Some, None, IfOk, OnOk, OnSome, map, reverse, vec_len};
ghost use Rattle.std.specs.Option.{option_map};
ghost use Rattle.loft_tree.specs.ProgramView.{program_of};
ghost use Rattle.loft_tree.specs.Resolved.{Resolved, resolved_of, target_of as variable_of};
ghost use Rattle.loft_sense.specs.Machine.{Tree};
ghost use Rattle.loft_sense.specs.Passes.{run_of};
ghost use Rattle.loft_sense.specs.Around.{Beside as BesideOf};
ghost use Rattle.loft_sense.specs.Run.{active_of, live, ends, going, go_on, step_on, no_step};
ghost use Rattle.loft_sense.specs.Tree.{tree};
ghost use Rattle.loft_effect.specs.View.{around_of, beside_of, steps_left};
ghost use Rattle.loft_effect.specs.Outcomes.{gone_of};
ghost use Rattle.loft_effect.specs.Progress.{progress_outcome, progress_left};
ghost use Rattle.loft_walk.specs.Frames.{active, actives, live_of, goes_or_stops, top_target, Answers};
ghost use Rattle.loft_walk.specs.Midst.{paused_outcome, paused_left, bound_of, bound_in, IfGoes};

use crate::paused::Paused;
use crate::running::Running;
use crate::step::Move;
use crate::stopping::{Stopped, end, stop};
use crate::work::{Task, take};
use loft_base::NoMemory;
use loft_effect::{Around, Beside, Gone, Progress};
use loft_orders::{End, Frame, Thread, Wait};
use loft_sense::MAX_FRAMES;
use loft_tree::{Heads, NamedProgram, Target};
use std::alloc::Global;

/// Frames that go on, outermost first, and the variable that the stop of the innermost sets, where it is a `get`.
#[derive(Drop)]
struct Woken<'a> {
    running: Vec<Running<'a>>,
    target: Option<Target>,
}

/// All frames go on where they stood.
fn wake_all<'a>(
    alloc: Global,
    program: &'a NamedProgram,
    mut frames: Vec<Frame>,
) -> Result<Woken<'a>, NoMemory>
    ensures frames { IfOk result (λ w. map active w.running.items
        ≡ map (active_of (tree (resolved_of (program_of program.now)))) frames.items) }
    ensures target { IfOk result (λ w. option_map variable_of w.target
        ≡ top_target (resolved_of (program_of program.now)) (actives w.running.items)) }
{
    let mut running = Vec::new(alloc);
    let mut target = None;
    'waking: while !frames.is_empty() {
        let (frame, variable) = Running::wake(alloc, program, frames.remove(0))?;
        running.push(frame)?;
        target = variable;
    }
    Ok(Woken { running, target })
}

/// The next task of the innermost frame that has something to do; those whose module has ended are dropped.
fn next_task<'a>(running: &mut Vec<Running<'a>>) -> Option<Task<'a>>
    ensures live { (p : Resolved)
        → live (tree p) (actives running.old.items) ≡ live_of result (actives running.new.items) }
    ensures some { OnSome result (0 < vec_len running.new) }
{
    'seeking: while let Some(top) = running.last_mut() {
        if let Some(task) = take(&mut top.work) {
            return Some(task);
        }
        running.pop();
    }
    None
}

/// The end of a thread that may make no step.
fn over(running: &[Running<'_>]) -> End
    ensures { (b : BesideOf) → ends result b 0 ≡ no_step b (actives running.now) }
{
    match running.last() {
        None => End::Done,
        Some(top) => End::Over(top.scope.at),
    }
}

/// The innermost frame makes a step; how the thread stops, if it does.
fn make_step<'a>(
    alloc: Global,
    program: &'a NamedProgram,
    running: &mut Vec<Running<'a>>,
    beside: &mut Beside,
    task: Task<'a>,
) -> Result<Option<Stopped>, NoMemory>
    requires { 0 < vec_len running.old }
    ensures steps { IfOk result (λ stopped. let code = tree (resolved_of (program_of program.now)) in
        (left : ℕ) → goes_or_stops stopped code left (beside_of beside.new) (actives running.new.items)
        ≡ step_on code left (going code left) (beside_of beside.old) (live_of (Some task.entry) (actives running.old.items))) }
    ensures bound { IfOk result (λ stopped. beside.new.around.bound ≡ beside.old.around.bound) }
{
    let innermost = running.len() - 1;
    let top = &mut running[innermost];
    let step = top.step(alloc, &program.heads, beside, task)?;
    let at = top.scope.at;
    match step {
        Move::GoOn => Ok(None),
        Move::Enter(module, arguments) => {
            if running.len() >= MAX_FRAMES {
                return Ok(Some(Stopped::Ends(End::Deep(at))));
            }
            let frame = Running::begin(alloc, program, beside.id, module, arguments)?;
            running.push(frame)?;
            Ok(None)
        }
        Move::Hold(wait) => Ok(Some(Stopped::Waits(wait))),
        Move::Leave(to) => Ok(Some(Stopped::Leaves(to))),
        Move::End(cause) => Ok(Some(Stopped::Ends(cause))),
    }
}

/// Steps of a thread with these frames, outermost first, until it stops, or no more are left; where it pauses, also until
/// something was done. How the thread stops, if it does.
fn make_steps<'a>(
    alloc: Global,
    program: &'a NamedProgram,
    running: &mut Vec<Running<'a>>,
    beside: &mut Beside,
    left: &mut u64,
    pauses: bool,
) -> Result<Option<Stopped>, NoMemory>
    ensures steps { IfOk result (λ stopped. let code = tree (resolved_of (program_of program.now)) in
        goes_or_stops stopped code left.new (beside_of beside.new) (actives running.new.items)
        ≡ going code left.old (beside_of beside.old) (actives running.old.items)) }
    ensures pauses { IfOk result (λ stopped. stopped ≡ None → pauses ≡ true) }
    ensures less { IfOk result (λ stopped. stopped ≡ None → left.new < left.old) }
    ensures left { IfOk result (λ stopped. left.new ≤ left.old) }
    ensures bound { IfOk result (λ stopped. beside.new.around.bound ≡ beside.old.around.bound) }
{
    'going: while let Some(task) = next_task(running) {
        if *left == 0 {
            return Ok(Some(Stopped::Ends(over(running.as_slice()))));
        }
        *left -= 1;
        if let Some(stopped) = make_step(alloc, program, running, beside, task)? {
            return Ok(Some(stopped));
        }
        if pauses && !beside.around.acts.is_empty() {
            return Ok(None);
        }
    }
    Ok(Some(Stopped::Ends(End::Done)))
}

/// A thread with these frames goes on, outermost first, in at most so many further steps, until it stops; where it pauses,
/// also until something was done.
fn run<'a>(
    alloc: Global,
    program: &'a NamedProgram,
    mut running: Vec<Running<'a>>,
    mut beside: Beside,
    mut left: u64,
    pauses: bool,
) -> Result<Progress<Paused<'a>>, NoMemory>
    requires { left ≤ beside.around.bound }
    ensures gone { IfOk result (λ progress. progress_outcome (paused_outcome (resolved_of (program_of program.now))) progress
        ≡ going (tree (resolved_of (program_of program.now))) left (beside_of beside) (actives running.entry.items)) }
    ensures pauses { IfOk result (λ progress. IfGoes progress (pauses ≡ true)) }
    ensures left { IfOk result (λ progress. progress_left paused_left progress ≤ left) }
    ensures bound { IfOk result (λ progress. bound_in progress ≡ beside.around.bound) }
{
    let stopped = make_steps(alloc, program, &mut running, &mut beside, &mut left, pauses)?;
    match stopped {
        None => Ok(Progress::Goes(Paused::new(running, beside, left))),
        Some(stopped) => Ok(Progress::Stops(stop(alloc, beside, running, stopped, left)?)),
    }
}

/// The wait of a thread with these frames ends, as it goes on; `target` is the variable that the stop of the innermost
/// frame sets, where it is a `get`.
fn answer(
    heads: &Heads,
    running: &mut Vec<Running<'_>>,
    beside: &mut Beside,
    wait: &Wait,
    target: Option<Target>,
) -> Result<(), NoMemory>
    ensures answers { OnOk result (Answers heads.now wait.now target running.old.items beside.old running.new.items beside.new) }
    ensures bound { OnOk result (beside.new.around.bound ≡ beside.old.around.bound) }
{
    if let Some(mut top) = running.pop() {
        top.scope.answer(heads, beside, wait, target);
        running.push(top)?;
    }
    Ok(())
}

/// A thread with these frames begins to go on from where it stood, outermost first, in at most so many steps.
fn walk<'a>(
    alloc: Global,
    program: &'a NamedProgram,
    frames: Vec<Frame>,
    wait: &Wait,
    mut beside: Beside,
    left: u64,
) -> Result<Progress<Paused<'a>>, NoMemory>
    requires { left ≤ beside.around.bound }
    ensures gone { IfOk result (λ progress. let code = tree (resolved_of (program_of program.now)) in
        progress_outcome (paused_outcome (resolved_of (program_of program.now))) progress
        ≡ go_on code left wait.now (beside_of beside) (map (active_of code) (reverse frames.items))) }
    ensures bound { IfOk result (λ progress. bound_in progress ≡ beside.around.bound) }
{
    let Woken {
        mut running,
        target,
    } = wake_all(alloc, program, frames)?;
    if left == 0 {
        let cause = over(running.as_slice());
        return Ok(Progress::Stops(end(beside, cause, 0)?));
    }
    answer(&program.heads, &mut running, &mut beside, wait, target)?;
    Ok(Progress::Goes(Paused::new(running, beside, left - 1)))
}

/// A run goes on until it stops; where it pauses, also until something was done.
fn run_on<'a>(
    alloc: Global,
    program: &'a NamedProgram,
    paused: Paused<'a>,
    pauses: bool,
) -> Result<Progress<Paused<'a>>, NoMemory>
    ensures gone { IfOk result (λ progress. progress_outcome (paused_outcome (resolved_of (program_of program.now))) progress
        ≡ paused_outcome (resolved_of (program_of program.now)) paused.entry) }
    ensures pauses { IfOk result (λ progress. IfGoes progress (pauses ≡ true)) }
    ensures left { IfOk result (λ progress. progress_left paused_left progress ≤ paused_left paused.entry) }
    ensures bound { IfOk result (λ progress. bound_in progress ≡ bound_of paused.entry) }
{
    let Paused { running, beside } = paused;
    let left = beside.around.bound - beside.around.steps;
    run(alloc, program, running, beside, left, pauses)
}

/// A run that has come so far goes on until it stops.
fn finish<'a>(
    alloc: Global,
    program: &'a NamedProgram,
    progress: Progress<Paused<'a>>,
) -> Result<Gone, NoMemory>
    ensures gone { IfOk result (λ gone. gone_of gone
        ≡ progress_outcome (paused_outcome (resolved_of (program_of program.now))) progress.entry) }
    ensures bound { IfOk result (λ gone. gone.around.bound ≡ bound_in progress.entry) }
{
    match progress {
        Progress::Stops(gone) => Ok(gone),
        Progress::Goes(paused) => match run_on(alloc, program, paused, false)? {
            Progress::Stops(gone) => Ok(gone),
            Progress::Goes(_) => unreachable!(),
        },
    }
}

/// A thread that can go begins to go on from where it stood, in as many steps as what stands around it still allows. It
/// runs no statement so far.
pub fn begin<'a>(
    alloc: Global,
    program: &'a NamedProgram,
    thread: Thread,
    around: Around,
) -> Result<Progress<Paused<'a>>, NoMemory>
    ensures gone { IfOk result (λ progress. progress_outcome (paused_outcome (resolved_of (program_of program.now))) progress
        ≡ run_of (Tree (resolved_of (program_of program.now))) thread (around_of around) (steps_left around)) }
    ensures bound { IfOk result (λ progress. bound_in progress ≡ around.bound) }
{
    let Thread {
        id,
        code,
        mask,
        wait,
        frames,
    } = thread;
    let left = around.bound - around.steps;
    let beside = Beside {
        id,
        code,
        mask,
        around,
    };
    walk(alloc, program, frames.into_vec(), &wait, beside, left)
}

/// A run goes on until something was done, or it stops. Each time it makes a step, or stops.
pub fn go_on<'a>(
    alloc: Global,
    program: &'a NamedProgram,
    paused: Paused<'a>,
) -> Result<Progress<Paused<'a>>, NoMemory>
    ensures gone { IfOk result (λ progress. progress_outcome (paused_outcome (resolved_of (program_of program.now))) progress
        ≡ paused_outcome (resolved_of (program_of program.now)) paused.entry) }
    ensures left { IfOk result (λ progress. progress_left paused_left progress ≤ paused_left paused.entry) }
{
    run_on(alloc, program, paused, true)
}

/// A thread that can go runs from where it stood to the stop that holds it or by which it leaves, or to its end, in as many
/// steps as what stands around it still allows.
pub fn go(
    alloc: Global,
    program: &NamedProgram,
    thread: Thread,
    around: Around,
) -> Result<Gone, NoMemory>
    ensures gone { IfOk result (λ gone. gone_of gone
        ≡ run_of (Tree (resolved_of (program_of program.now))) thread (around_of around) (steps_left around)) }
    ensures bound { IfOk result (λ gone. gone.around.bound ≡ around.bound) }
{
    let progress = begin(alloc, program, thread, around)?;
    finish(alloc, program, progress)
}
