//! How a thread stops: it waits, leaves or ends, with its frames as they are kept (docs/SEMANTICS.md, "Run").

ghost use Rattle.std.specs.Prelude.{◌≡◌, ◌≤◌, IfOk, map};
ghost use Rattle.loft_tree.specs.Resolved.{Resolved};
ghost use Rattle.loft_orders.specs.declared.thread.Wait.TheVariants.{New as WaitNew};
ghost use Rattle.loft_sense.specs.Run.{frame_of, thread_of, ends, Held, Left};
ghost use Rattle.loft_sense.specs.Tree.{tree};
ghost use Rattle.loft_effect.specs.View.{around_of, beside_of, steps_left};
ghost use Rattle.loft_effect.specs.Outcomes.{gone_of};
ghost use Rattle.loft_walk.specs.Frames.{active, actives, stops};

use crate::running::Running;
use loft_base::{NoMemory, Sequence};
use loft_effect::{Around, Beside, Gone, Outcome};
use loft_orders::{End, Frame, Thread, To, Wait};
use std::alloc::Global;

/// How a thread stops.
#[derive(Drop)]
pub enum Stopped {
    /// It waits.
    Waits(Wait),
    /// It leaves.
    Leaves(To),
    /// It ends.
    Ends(End),
}

/// All frames as they are kept.
fn keep_all(alloc: Global, mut running: Vec<Running<'_>>) -> Result<Vec<Frame>, NoMemory>
    ensures { IfOk result (λ frames. (p : Resolved)
        → frames.items ≡ map (frame_of (tree p)) (map active running.entry.items)) }
{
    let mut frames = Vec::new(alloc);
    'keeping: while !running.is_empty() {
        frames.push(running.remove(0).keep(alloc)?)?;
    }
    Ok(frames)
}

/// What stands around a thread that may still make so many steps in this instant.
fn around_after(mut around: Around, left: u64) -> Around
    requires { left ≤ around.bound }
    ensures same { around_of result ≡ around_of around }
    ensures left { steps_left result ≡ left }
    ensures bound { result.bound ≡ around.bound }
{
    around.steps = around.bound - left;
    around
}

/// The thread with these frames, outermost first, and what stands around it, where it may still make so many steps.
fn stand(
    alloc: Global,
    beside: Beside,
    running: Vec<Running<'_>>,
    wait: Wait,
    left: u64,
) -> Result<(Thread, Around), NoMemory>
    requires { left ≤ beside.around.bound }
    ensures thread { IfOk result (λ stood. (p : Resolved)
        → stood.0 ≡ thread_of (tree p) wait (actives running.entry.items) (beside_of beside)) }
    ensures around { IfOk result (λ stood. around_of stood.1 ≡ around_of beside.around) }
    ensures left { IfOk result (λ stood. steps_left stood.1 ≡ left) }
    ensures bound { IfOk result (λ stood. stood.1.bound ≡ beside.around.bound) }
{
    let frames = Sequence::from_vec(keep_all(alloc, running)?);
    let thread = Thread {
        id: beside.id,
        code: beside.code,
        mask: beside.mask,
        wait,
        frames,
    };
    Ok((thread, around_after(beside.around, left)))
}

/// A stop holds the thread.
fn hold(
    alloc: Global,
    beside: Beside,
    running: Vec<Running<'_>>,
    wait: Wait,
    left: u64,
) -> Result<Gone, NoMemory>
    requires { left ≤ beside.around.bound }
    ensures held { IfOk result (λ gone. (p : Resolved)
        → gone_of gone ≡ Held (thread_of (tree p) wait (actives running.entry.items) (beside_of beside)) (around_of beside.around) left) }
    ensures bound { IfOk result (λ gone. gone.around.bound ≡ beside.around.bound) }
{
    let (thread, around) = stand(alloc, beside, running, wait, left)?;
    let outcome = Outcome::Held(thread);
    Ok(Gone { outcome, around })
}

/// The thread leaves.
fn leave(
    alloc: Global,
    beside: Beside,
    running: Vec<Running<'_>>,
    to: To,
    left: u64,
) -> Result<Gone, NoMemory>
    requires { left ≤ beside.around.bound }
    ensures left { IfOk result (λ gone. (p : Resolved)
        → gone_of gone ≡ Left (thread_of (tree p) WaitNew (actives running.entry.items) (beside_of beside)) to (around_of beside.around) left) }
    ensures bound { IfOk result (λ gone. gone.around.bound ≡ beside.around.bound) }
{
    let (thread, around) = stand(alloc, beside, running, Wait::New, left)?;
    let outcome = Outcome::Left(thread, to);
    Ok(Gone { outcome, around })
}

/// The thread ends.
pub fn end(mut beside: Beside, end: End, left: u64) -> Result<Gone, NoMemory>
    requires { left ≤ beside.around.bound }
    ensures ended { IfOk result (λ gone. gone_of gone ≡ ends end (beside_of beside) left) }
    ensures bound { IfOk result (λ gone. gone.around.bound ≡ beside.around.bound) }
{
    beside.end(end)?;
    let around = around_after(beside.around, left);
    let outcome = Outcome::Ended(end);
    Ok(Gone { outcome, around })
}

/// The thread stops.
pub fn stop(
    alloc: Global,
    beside: Beside,
    running: Vec<Running<'_>>,
    stopped: Stopped,
    left: u64,
) -> Result<Gone, NoMemory>
    requires { left ≤ beside.around.bound }
    ensures stops { IfOk result (λ gone. (p : Resolved)
        → gone_of gone ≡ stops stopped (tree p) left (actives running.entry.items) (beside_of beside)) }
    ensures bound { IfOk result (λ gone. gone.around.bound ≡ beside.around.bound) }
{
    match stopped {
        Stopped::Waits(wait) => hold(alloc, beside, running, wait, left),
        Stopped::Leaves(to) => leave(alloc, beside, running, to, left),
        Stopped::Ends(cause) => end(beside, cause, left),
    }
}
