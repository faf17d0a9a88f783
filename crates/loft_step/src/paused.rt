//! Runs that pause where something was done (docs/SEMANTICS.md, "Unlinked blocks").

ghost use Rattle.std.specs.Prelude.{◌≡◌, ℕ, ◌≤◌, ◌<◌, IfOk};
ghost use Rattle.loft_code.specs.Operations.{Automata};
ghost use Rattle.loft_code.specs.View.{automata_of};
ghost use Rattle.loft_sense.specs.Machine.{Code as ByCode};
ghost use Rattle.loft_sense.specs.Passes.{run_of};
ghost use Rattle.loft_effect.specs.View.{around_of, steps_left};
ghost use Rattle.loft_effect.specs.Progress.{progress_outcome, progress_left};
ghost use Rattle.loft_step.specs.Midst.{turn_with, IfGoes, paused_outcome, paused_left};

use crate::midst::{Paused, Turn};
use crate::thread::{begin as begin_in, run};
use loft_base::NoMemory;
use loft_code::Code;
use loft_count::Steps;
use loft_effect::{Around, Beside, Gone, Progress};
use loft_orders::Thread;
use std::alloc::Global;
use std::marker::Brand;
use std::sync::ledger::{Blank, Ledger};

/// What has come of a turn, with what stands beside the frames.
fn after_turn(turn: Turn, beside: Beside) -> Progress<Paused>
    ensures outcome { (c : Automata) → progress_outcome (paused_outcome c) result ≡ turn_with c turn beside }
    ensures left { (n : ℕ) → IfGoes turn (steps_left beside.around < n) → progress_left paused_left result ≤ n }
{
    match turn {
        Turn::Goes(stack) => Progress::Goes(Paused { stack, beside }),
        Turn::Stops(outcome) => Progress::Stops(Gone {
            outcome,
            around: beside.around,
        }),
    }
}

/// The same as `begin`, with a count of steps.
fn begin_counted<L: Ledger>(
    c: &Code,
    thread: Thread,
    around: Around,
    blank: Blank,
) -> Result<Progress<Paused>, NoMemory>
    requires name { blank.name ≡ L.name }
    requires parts { blank.parts ≡ L.parts }
    requires some { 0 < L.parts }
    ensures { IfOk result (λ progress. progress_outcome (paused_outcome (automata_of c.now)) progress
        ≡ run_of (ByCode (automata_of c.now)) thread (around_of around) (steps_left around)) }
{
    let mut steps = Steps::<L>::new(blank);
    let Thread {
        id,
        code,
        mask,
        wait,
        frames,
    } = thread;
    let mut beside = Beside {
        id,
        code,
        mask,
        around,
    };
    let turn = begin_in(c, frames, &wait, &mut beside, &mut steps)?;
    Ok(after_turn(turn, beside))
}

/// The same as `go_on`, with a count of steps.
fn go_on_counted<L: Ledger>(
    alloc: Global,
    c: &Code,
    paused: Paused,
    blank: Blank,
) -> Result<Progress<Paused>, NoMemory>
    requires name { blank.name ≡ L.name }
    requires parts { blank.parts ≡ L.parts }
    requires some { 0 < L.parts }
    ensures outcome { IfOk result (λ progress. progress_outcome (paused_outcome (automata_of c.now)) progress
        ≡ paused_outcome (automata_of c.now) paused) }
    ensures left { IfOk result (λ progress. progress_left paused_left progress ≤ paused_left paused) }
{
    let mut steps = Steps::<L>::new(blank);
    let Paused { stack, mut beside } = paused;
    let turn = run(alloc, c, stack, &mut beside, true, &mut steps)?;
    Ok(after_turn(turn, beside))
}

/// A thread that can go begins to go on from where it stood, in as many steps as what stands around it still allows. It
/// runs no statement so far.
pub fn begin(c: &Code, thread: Thread, around: Around) -> Result<Progress<Paused>, NoMemory>
    ensures { IfOk result (λ progress. progress_outcome (paused_outcome (automata_of c.now)) progress
        ≡ run_of (ByCode (automata_of c.now)) thread (around_of around) (steps_left around)) }
{
    begin_counted::<Brand>(c, thread, around, Blank::new(1))
}

/// A run goes on until something was done, or it stops. Each time it makes a step, or stops.
pub fn go_on(alloc: Global, c: &Code, paused: Paused) -> Result<Progress<Paused>, NoMemory>
    ensures outcome { IfOk result (λ progress. progress_outcome (paused_outcome (automata_of c.now)) progress
        ≡ paused_outcome (automata_of c.now) paused) }
    ensures left { IfOk result (λ progress. progress_left paused_left progress ≤ paused_left paused) }
{
    go_on_counted::<Brand>(alloc, c, paused, Blank::new(1))
}
