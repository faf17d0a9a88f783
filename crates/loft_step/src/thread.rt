//! A thread runs by its code (docs/SEMANTICS.md, "Run").

ghost use Rattle.std.specs.Prelude.{◌≡◌, [], ◌∷◌, ◌-◌, ◌+◌, ◌<◌, ◌≤◌, true, false, length, IfOk, OnOk, IfSome, IsNone};
ghost use Rattle.loft_code.specs.Operations.{Automata};
ghost use Rattle.loft_code.specs.View.{automata_of};
ghost use Rattle.loft_orders.specs.declared.order.End.TheVariants.{Done};
ghost use Rattle.loft_orders.specs.declared.thread.Wait.TheVariants.{New as WaitNew};
ghost use Rattle.loft_sense.specs.Machine.{Code as ByCode};
ghost use Rattle.loft_sense.specs.Passes.{run_of};
ghost use Rattle.loft_sense.specs.Around.{Beside as BesideOf};
ghost use Rattle.loft_sense.specs.Code.{code as control_of};
ghost use Rattle.loft_sense.specs.Run.{thread_of, begun_frame, ends, going, go_on, no_step, Held, Left, Ended};
ghost use Rattle.loft_effect.specs.declared.effect.Effect.TheVariants.{GoesOn};
ghost use Rattle.loft_effect.specs.View.{around_of, beside_of, pace_of, steps_left};
ghost use Rattle.loft_effect.specs.Outcomes.{outcome_of, outcome_with};
ghost use Rattle.loft_step.specs.Frames.{active, actives, advance_if, moved_by, HasStopped};
ghost use Rattle.loft_step.specs.Kept.{AreKept};
ghost use Rattle.loft_step.specs.Midst.{turn_with, IfGoes};

use crate::midst::{Stack, Turn};
use crate::running::{Running, settle_all};
use crate::step::Move;
use crate::walk::count;
use loft_base::{ModuleId, NoMemory, ThreadId, Values};
use loft_code::Code;
use loft_count::Steps;
use loft_effect::{Around, Beside, Effect, Outcome, take_around};
use loft_orders::{At, End, Frame, Frames, Stop, Thread, To, Wait};
use loft_sense::MAX_FRAMES;
use std::alloc::Global;
use std::mem;
use std::sync::ledger::Ledger;

/// The end of a thread that may make no step.
fn over(frames: &[Frame]) -> End
    ensures { (c : Automata) (b : BesideOf) → ends result b 0 ≡ no_step b (actives c frames.now) }
{
    match frames.last() {
        None => End::Done,
        Some(frame) => End::Over(At {
            module: frame.module,
            stop: frame.stop,
        }),
    }
}

/// The thread with these frames, and this wait.
#[inline(always)]
fn stand(beside: &Beside, top: Running, mut outer: Frames, wait: Wait) -> Result<Thread, NoMemory>
    requires { AreKept outer }
    ensures { IfOk result (λ thread. (c : Automata)
        → thread ≡ thread_of (control_of c) wait (active top ∷ actives c outer) (beside_of beside.now)) }
{
    outer.push(top.keep())?;
    Ok(Thread {
        id: beside.id,
        code: beside.code,
        mask: beside.mask,
        wait,
        frames: outer,
    })
}

/// A stop holds the thread.
fn hold(beside: &Beside, top: Running, outer: Frames, wait: Wait) -> Result<Outcome, NoMemory>
    requires { AreKept outer }
    ensures { IfOk result (λ outcome. (c : Automata)
        → outcome_with outcome beside.now.around ≡ Held (thread_of (control_of c) wait (active top ∷ actives c outer) (beside_of beside.now)) (around_of beside.now.around) (steps_left beside.now.around)) }
{
    let thread = stand(beside, top, outer, wait)?;
    Ok(Outcome::Held(thread))
}

/// The thread leaves.
fn leave(beside: &Beside, top: Running, outer: Frames, to: To) -> Result<Outcome, NoMemory>
    requires { AreKept outer }
    ensures { IfOk result (λ outcome. (c : Automata)
        → outcome_with outcome beside.now.around ≡ Left (thread_of (control_of c) WaitNew (active top ∷ actives c outer) (beside_of beside.now)) to (around_of beside.now.around) (steps_left beside.now.around)) }
{
    let thread = stand(beside, top, outer, Wait::New)?;
    Ok(Outcome::Left(thread, to))
}

/// The thread ends.
fn end(beside: &mut Beside, end: End) -> Result<(), NoMemory>
    ensures ended { OnOk result (Ended end (around_of beside.new.around) (steps_left beside.new.around)
        ≡ ends end (beside_of beside.old) (steps_left beside.old.around)) }
    ensures pace { OnOk result (pace_of beside.new.around ≡ pace_of beside.old.around) }
{
    beside.end(end)?;
    Ok(())
}

/// The innermost frame is dropped, and its caller goes on. Answers whether there is one.
fn go_back(code: &Code, top: &mut Running, outer: &mut Frames) -> bool
    requires { AreKept outer.old }
    ensures kept { AreKept outer.new }
    ensures back { let c = automata_of code.now in result ≡ true
        → actives c outer.old ≡ active top.new ∷ actives c outer.new }
    ensures fewer { result ≡ true → length outer.old ≡ length outer.new + 1 }
    ensures alone { result ≡ false → outer.old ≡ [] }
{
    let Some(frame) = outer.pop() else {
        return false;
    };
    let (caller, _) = Running::wake(code, frame);
    *top = caller;
    true
}

/// A module runs in a further frame, over one that stands.
fn enter(
    alloc: Global,
    code: &Code,
    top: &mut Running,
    outer: &mut Frames,
    thread: ThreadId,
    module: ModuleId,
    arguments: Values,
) -> Result<(), NoMemory>
    requires kept { AreKept outer.old }
    requires stands { HasStopped (automata_of code.now) top.old }
    ensures kept { OnOk result (AreKept outer.new) }
    ensures begins { OnOk result ((b : BesideOf) → b.id ≡ thread
        → active top.new ≡ begun_frame (control_of (automata_of code.now)) «module» arguments b) }
    ensures over { let c = automata_of code.now in OnOk result
        (actives c outer.new ≡ active top.old ∷ actives c outer.old) }
    ensures more { OnOk result (length outer.new ≡ length outer.old + 1) }
{
    let called = Running::begin(alloc, code, thread, module, arguments)?;
    outer.push(mem::replace(top, called).keep())?;
    Ok(())
}

/// The frames of a thread go on until it stops; where it pauses, also until something was done.
/// Answers what becomes of the thread, over the frames as they are then.
fn walk_frames<L: Ledger>(
    alloc: Global,
    code: &Code,
    top: &mut Running,
    outer: &mut Frames,
    beside: &mut Beside,
    pauses: bool,
    steps: &mut Steps<L>,
) -> Result<Effect, NoMemory>
    requires { AreKept outer.old }
    ensures goes { IfOk result (λ effect. let c = automata_of code.now in
        let left = steps_left beside.new.around in
        advance_if (moved_by effect) (control_of c) left (going (control_of c) left)
        (active top.new) (actives c outer.new) (beside_of beside.new)
        ≡ going (control_of c) (steps_left beside.old.around) (beside_of beside.old)
        (active top.old ∷ actives c outer.old)) }
    ensures kept { OnOk result (AreKept outer.new) }
    ensures pauses { IfOk result (λ effect. effect ≡ GoesOn → pauses ≡ true) }
    ensures fewer { IfOk result (λ effect. effect ≡ GoesOn
        → steps_left beside.new.around < steps_left beside.old.around) }
    ensures bound { OnOk result (beside.new.around.bound ≡ beside.old.around.bound) }
    ensures grows { OnOk result (beside.old.around.steps ≤ beside.new.around.steps) }
    ensures counted { OnOk result
        (steps.new + beside.old.around.steps ≡ steps.old + beside.new.around.steps) }
    ensures within { steps.new + beside.old.around.steps ≤ steps.old + beside.old.around.bound }
{
    'going: loop {
        match top.walk(alloc, code, beside, pauses, steps)? {
            Move::Pause => {
                if pauses {
                    return Ok(Effect::GoesOn);
                }
            }
            Move::Return => {
                if !go_back(code, top, outer) {
                    return Ok(Effect::Dies(End::Done));
                }
            }
            Move::Enter(module, arguments) => {
                if outer.len() >= MAX_FRAMES - 1 {
                    return Ok(Effect::Dies(End::Deep(top.scope.at)));
                }
                enter(alloc, code, top, outer, beside.id, module, arguments)?;
            }
            Move::Hold(wait) => return Ok(Effect::Waits(wait)),
            Move::Leave(to) => return Ok(Effect::Leaves(to)),
            Move::End(cause) => return Ok(Effect::Dies(cause)),
        }
    }
}

/// A thread goes on with these frames until it stops; where it pauses, also until something was done.
pub fn run<L: Ledger>(
    alloc: Global,
    code: &Code,
    stack: Stack,
    beside: &mut Beside,
    pauses: bool,
    steps: &mut Steps<L>,
) -> Result<Turn, NoMemory>
    ensures gone { IfOk result (λ turn. let c = automata_of code.now in
        turn_with c turn beside.new ≡ going (control_of c) (steps_left beside.old.around) (beside_of beside.old) (active stack.top ∷ actives c stack.outer)) }
    ensures fewer { IfOk result (λ turn. IfGoes turn (steps_left beside.new.around < steps_left beside.old.around)) }
{
    let Stack { mut top, mut outer } = stack;
    match walk_frames(alloc, code, &mut top, &mut outer, beside, pauses, steps)? {
        Effect::GoesOn => Ok(Turn::Goes(Stack { top, outer })),
        Effect::Waits(wait) => Ok(Turn::Stops(hold(beside, top, outer, wait)?)),
        Effect::Leaves(to) => Ok(Turn::Stops(leave(beside, top, outer, to)?)),
        Effect::Dies(cause) => {
            end(beside, cause)?;
            Ok(Turn::Stops(Outcome::Ended(cause)))
        }
    }
}

/// The innermost of these frames, outermost first, goes on from where it stood, in a step that is counted. There may be none.
#[inline(always)]
fn rouse<L: Ledger>(
    code: &Code,
    frames: &mut Frames,
    wait: &Wait,
    beside: &mut Beside,
    steps: &mut Steps<L>,
) -> Option<Running>
    requires { beside.old.around.steps < beside.old.around.bound }
    ensures kept { AreKept frames.new }
    ensures some { IfSome result (λ top. let c = automata_of code.now in
        going (control_of c) (steps_left beside.new.around) (beside_of beside.new) (active top ∷ actives c frames.new)
        ≡ go_on (control_of c) (steps_left beside.old.around) wait.now (beside_of beside.old) (actives c frames.old)) }
    ensures none { IsNone result → let c = automata_of code.now in
        ends Done (beside_of beside.new) (steps_left beside.new.around)
        ≡ go_on (control_of c) (steps_left beside.old.around) wait.now (beside_of beside.old) (actives c frames.old) }
    ensures bound { beside.new.around.bound ≡ beside.old.around.bound }
    ensures grows { beside.new.around.steps ≡ beside.old.around.steps + 1 }
    ensures counted { steps.new ≡ steps.old + 1 }
{
    count(&mut beside.around, steps);
    settle_all(frames.as_mut_slice());
    let Some(frame) = frames.pop() else {
        return None;
    };
    let (mut top, target) = Running::wake(code, frame);
    top.scope.answer(code.heads(), beside, wait, target);
    Some(top)
}

/// A thread with these frames, outermost first, begins to go on from where it stood.
pub fn begin<L: Ledger>(
    code: &Code,
    mut frames: Frames,
    wait: &Wait,
    beside: &mut Beside,
    steps: &mut Steps<L>,
) -> Result<Turn, NoMemory>
    ensures { IfOk result (λ turn. let c = automata_of code.now in
        turn_with c turn beside.new ≡ go_on (control_of c) (steps_left beside.old.around) wait.now (beside_of beside.old) (actives c frames)) }
{
    if beside.around.steps == beside.around.bound {
        let cause = over(frames.as_slice());
        end(beside, cause)?;
        return Ok(Turn::Stops(Outcome::Ended(cause)));
    }
    match rouse(code, &mut frames, wait, beside, steps) {
        Some(top) => Ok(Turn::Goes(Stack { top, outer: frames })),
        None => {
            end(beside, End::Done)?;
            Ok(Turn::Stops(Outcome::Ended(End::Done)))
        }
    }
}

/// The thread stands from now on, with this innermost frame over those that it keeps.
#[inline(always)]
fn stand_there(t: &mut Thread, beside: &Beside, top: Running, wait: Wait) -> Result<(), NoMemory>
    requires { AreKept t.old.frames }
    ensures { OnOk result ((c : Automata)
        → t.new ≡ thread_of (control_of c) wait (active top ∷ actives c t.old.frames) (beside_of beside.now)) }
{
    t.frames.push(top.keep())?;
    t.id = beside.id;
    t.code = beside.code;
    t.mask = beside.mask;
    t.wait = wait;
    Ok(())
}

/// A thread goes on from where it stood, until it stops.
#[inline(always)]
fn whole<L: Ledger>(
    alloc: Global,
    code: &Code,
    t: &mut Thread,
    beside: &mut Beside,
    steps: &mut Steps<L>,
) -> Result<Stop, NoMemory>
    ensures gone { IfOk result (λ stop. let c = automata_of code.now in
        outcome_of stop t.new (around_of beside.new.around) (steps_left beside.new.around)
        ≡ go_on (control_of c) (steps_left beside.old.around) t.old.wait (beside_of beside.old) (actives c t.old.frames)) }
    ensures bound { OnOk result (beside.new.around.bound ≡ beside.old.around.bound) }
    ensures grows { OnOk result (beside.old.around.steps ≤ beside.new.around.steps) }
    ensures counted { OnOk result (steps.new + beside.old.around.steps ≡ steps.old + beside.new.around.steps) }
    ensures within { steps.new + beside.old.around.steps ≤ steps.old + beside.old.around.bound }
{
    if beside.around.steps == beside.around.bound {
        let cause = over(t.frames.as_slice());
        end(beside, cause)?;
        return Ok(Stop::Ends(cause));
    }
    let Some(mut top) = rouse(code, &mut t.frames, &t.wait, beside, steps) else {
        end(beside, End::Done)?;
        return Ok(Stop::Ends(End::Done));
    };
    match walk_frames(alloc, code, &mut top, &mut t.frames, beside, false, steps)? {
        Effect::GoesOn => unreachable!(),
        Effect::Waits(wait) => {
            stand_there(t, beside, top, wait)?;
            Ok(Stop::Holds)
        }
        Effect::Leaves(to) => {
            stand_there(t, beside, top, Wait::New)?;
            Ok(Stop::Leaves(to))
        }
        Effect::Dies(cause) => {
            end(beside, cause)?;
            Ok(Stop::Ends(cause))
        }
    }
}

/// A thread that can go runs from where it stood to the stop that holds it or by which it leaves, or to its end, in as many
/// steps as what stands around it still allows. Each of them is counted. Where it is out of memory, nothing is said of the
/// thread and of what stands around it; no more steps are counted than it might have made.
pub fn go<L: Ledger>(
    alloc: Global,
    c: &Code,
    t: &mut Thread,
    around: &mut Around,
    steps: &mut Steps<L>,
) -> Result<Stop, NoMemory>
    ensures outcome { IfOk result (λ stop. outcome_of stop t.new (around_of around.new) (around.new.bound - around.new.steps)
        ≡ run_of (ByCode (automata_of c.now)) t.old (around_of around.old) (around.old.bound - around.old.steps)) }
    ensures bound { OnOk result (around.new.bound ≡ around.old.bound) }
    ensures counted { OnOk result (steps.new ≡ steps.old + (around.new.steps - around.old.steps)) }
    ensures within { steps.new ≤ steps.old + (around.old.bound - around.old.steps) }
{
    let mut beside = Beside {
        id: t.id,
        code: t.code,
        mask: t.mask,
        around: take_around(alloc, around)?,
    };
    let stop = whole(alloc, c, t, &mut beside, steps)?;
    *around = beside.around;
    Ok(stop)
}
