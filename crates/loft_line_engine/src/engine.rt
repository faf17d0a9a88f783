//! The engine over linked threads whose waits are kept.

ghost use Rattle.std.specs.Prelude.{◌≡◌, ◌+◌, ◌<◌, ◌≤◌, true, false, is_none, All, IfOk, OnErr, OnOk, Some};
ghost use Rattle.loft_sense.specs.Fits.{Fits};
ghost use Rattle.loft_sense.specs.Instant.{instant as instant_of};
ghost use Rattle.loft_sense.specs.Machine.{empty};
ghost use Rattle.loft_sense.specs.Rest.{is_spent};
ghost use Rattle.loft_line_engine.specs.Counts.{most_counted, least_counted};
ghost use Rattle.loft_base.specs.Options.{IsInRange};
ghost use Rattle.loft_line_engine.specs.declared.state.State.{State as StateOf};
ghost use Rattle.loft_line_engine.specs.States.{machine_of, IsReady};

use crate::state::State;
use crate::step::instant;
use loft_base::{Limits, NoMemory, SchedId, Sequence};
use loft_count::Steps;
use loft_counted_run::CountedInterpreter;
use loft_instant::{Setting, own_of};
use loft_orders::{FinalState, InstantNote, Orders};
use loft_passes::Interpreter;
use loft_sense::Engine;
use std::alloc::Global;
use std::marker::Brand;
use std::sync::ledger::{Blank, Ledger};

/// The engine of one scheduler, whose waiting threads are looked at only where something has come for
/// them: an instant changes what the definitions change, and after a failed allocation it makes no
/// further one.
#[derive(Drop)]
pub struct LineEngine<I: Interpreter> {
    setting: Setting<I>,
    /// None after a failed allocation.
    state: Option<State>,
    ghost few_instants: { setting.limits.instants ≤ 1000000 },
    ghost ready: { (s : StateOf) → state ≡ Some s → IsReady setting.events setting.limits s },
}

impl<I: CountedInterpreter> LineEngine<I> {
    /// An engine that has made no instant of this scheduler, over what runs the threads of its program.
    /// `NoMemory` comes where an allocation fails.
    pub fn new(
        alloc: Global,
        interpreter: I,
        scheduler: SchedId,
        limits: Limits,
    ) -> Result<LineEngine<I>, NoMemory>
        requires range { IsInRange limits }
        ensures program { IfOk result (λ e.
            ⟦<LineEngine<I> as Engine>⟧.program e ≡ I.program interpreter) }
        ensures scheduler { IfOk result (λ e.
            ⟦<LineEngine<I> as Engine>⟧.scheduler e ≡ scheduler) }
        ensures limits { IfOk result (λ e. ⟦<LineEngine<I> as Engine>⟧.limits e ≡ limits) }
        ensures machine { IfOk result (λ e.
            ⟦<LineEngine<I> as Engine>⟧.machine e ≡ empty (I.program interpreter) scheduler) }
        ensures works { IfOk result (λ e. ⟦<LineEngine<I> as Engine>⟧.has_failed e ≡ false) }
    {
        let heads = interpreter.heads();
        let events = heads.events.len() as u32;
        let own = own_of(alloc, scheduler, heads.shared.as_slice())?;
        let state = State::first(alloc, scheduler, heads, events, limits.budget)?;
        let setting = Setting {
            interpreter,
            scheduler,
            limits,
            own,
            events,
        };
        Ok(LineEngine {
            setting,
            state: Some(state),
        })
    }

    /// One instant, as `take` makes it, in which each order of the batch is counted, each position at
    /// which a thread runs, and each step.
    pub fn take_counted<L: Ledger>(
        &mut self,
        alloc: Global,
        batch: &Orders,
        steps: &mut Steps<L>,
    ) -> Result<InstantNote, NoMemory>
        requires unspent { ⟦<LineEngine<I> as Engine>⟧.has_failed self.old ≡ false → is_spent (⟦<LineEngine<I> as Engine>⟧.program self.old) (⟦<LineEngine<I> as Engine>⟧.limits self.old) (⟦<LineEngine<I> as Engine>⟧.machine self.old) ≡ false }
        requires fits { All (Fits (⟦<LineEngine<I> as Engine>⟧.program self.old) (⟦<LineEngine<I> as Engine>⟧.scheduler self.old)) batch.now }
        ensures note { IfOk result (λ note. note ≡ (instant_of (⟦<LineEngine<I> as Engine>⟧.program self.old) (⟦<LineEngine<I> as Engine>⟧.limits self.old) (⟦<LineEngine<I> as Engine>⟧.machine self.old) batch.now).note) }
        ensures machine { OnOk result (⟦<LineEngine<I> as Engine>⟧.machine self.new ≡ (instant_of (⟦<LineEngine<I> as Engine>⟧.program self.old) (⟦<LineEngine<I> as Engine>⟧.limits self.old) (⟦<LineEngine<I> as Engine>⟧.machine self.old) batch.now).machine) }
        ensures no_memory { OnErr result (⟦<LineEngine<I> as Engine>⟧.has_failed self.new ≡ true) }
        ensures works { OnOk result ((⟦<LineEngine<I> as Engine>⟧.has_failed self.old ≡ false) × (⟦<LineEngine<I> as Engine>⟧.has_failed self.new ≡ false)) }
        ensures same_program { ⟦<LineEngine<I> as Engine>⟧.program self.new ≡ ⟦<LineEngine<I> as Engine>⟧.program self.old }
        ensures same_scheduler { ⟦<LineEngine<I> as Engine>⟧.scheduler self.new ≡ ⟦<LineEngine<I> as Engine>⟧.scheduler self.old }
        ensures same_limits { ⟦<LineEngine<I> as Engine>⟧.limits self.new ≡ ⟦<LineEngine<I> as Engine>⟧.limits self.old }
        ensures counted { steps.new ≤ steps.old + most_counted (⟦<LineEngine<I> as Engine>⟧.program self.old) (⟦<LineEngine<I> as Engine>⟧.limits self.old) (⟦<LineEngine<I> as Engine>⟧.machine self.old) batch.now }
        ensures least { OnOk result (steps.old + least_counted (⟦<LineEngine<I> as Engine>⟧.program self.old) (⟦<LineEngine<I> as Engine>⟧.limits self.old) (⟦<LineEngine<I> as Engine>⟧.machine self.old) batch.now ≤ steps.new) }
    {
        let Some(state) = self.state.take() else {
            return Err(NoMemory);
        };
        let (state, note) = instant(alloc, &self.setting, state, batch, steps)?;
        self.state = Some(state);
        Ok(note)
    }

    /// The same, where nobody asks for the count.
    fn take_uncounted<L: Ledger>(
        &mut self,
        alloc: Global,
        batch: &Orders,
        blank: Blank,
    ) -> Result<InstantNote, NoMemory>
        requires name { blank.name ≡ L.name }
        requires parts { blank.parts ≡ L.parts }
        requires some { 0 < L.parts }
        requires unspent { ⟦<LineEngine<I> as Engine>⟧.has_failed self.old ≡ false → is_spent (⟦<LineEngine<I> as Engine>⟧.program self.old) (⟦<LineEngine<I> as Engine>⟧.limits self.old) (⟦<LineEngine<I> as Engine>⟧.machine self.old) ≡ false }
        requires fits { All (Fits (⟦<LineEngine<I> as Engine>⟧.program self.old) (⟦<LineEngine<I> as Engine>⟧.scheduler self.old)) batch.now }
        ensures note { IfOk result (λ note. note ≡ (instant_of (⟦<LineEngine<I> as Engine>⟧.program self.old) (⟦<LineEngine<I> as Engine>⟧.limits self.old) (⟦<LineEngine<I> as Engine>⟧.machine self.old) batch.now).note) }
        ensures machine { OnOk result (⟦<LineEngine<I> as Engine>⟧.machine self.new ≡ (instant_of (⟦<LineEngine<I> as Engine>⟧.program self.old) (⟦<LineEngine<I> as Engine>⟧.limits self.old) (⟦<LineEngine<I> as Engine>⟧.machine self.old) batch.now).machine) }
        ensures no_memory { OnErr result (⟦<LineEngine<I> as Engine>⟧.has_failed self.new ≡ true) }
        ensures works { OnOk result ((⟦<LineEngine<I> as Engine>⟧.has_failed self.old ≡ false) × (⟦<LineEngine<I> as Engine>⟧.has_failed self.new ≡ false)) }
        ensures same_program { ⟦<LineEngine<I> as Engine>⟧.program self.new ≡ ⟦<LineEngine<I> as Engine>⟧.program self.old }
        ensures same_scheduler { ⟦<LineEngine<I> as Engine>⟧.scheduler self.new ≡ ⟦<LineEngine<I> as Engine>⟧.scheduler self.old }
        ensures same_limits { ⟦<LineEngine<I> as Engine>⟧.limits self.new ≡ ⟦<LineEngine<I> as Engine>⟧.limits self.old }
    {
        let mut steps = Steps::<L>::new(blank);
        self.take_counted(alloc, batch, &mut steps)
    }
}

impl<I: CountedInterpreter> Engine for LineEngine<I> {
    ghost use Rattle.std.specs.Prelude.{refl};

    ghost program = { λ e. I.program e.setting.interpreter };

    ghost scheduler = { λ e. e.setting.scheduler };

    ghost limits = { λ e. e.setting.limits };

    ghost machine = { λ e. machine_of e.setting.scheduler e.state };

    ghost has_failed = { λ e. is_none e.state };

    fn take(&mut self, alloc: Global, batch: &Orders) -> Result<InstantNote, NoMemory> {
        self.take_uncounted::<Brand>(alloc, batch, Blank::new(1))
    }

    fn resting(&self) -> bool {
        match &self.state {
            Some(state) => state.line.rests(),
            None => true,
        }
    }

    fn spent(&self) -> bool {
        match &self.state {
            Some(state) => {
                let heads = self.setting.interpreter.heads();
                state.tally.reaches_bound(heads, &self.setting.limits)
            }
            None => true,
        }
    }

    fn instant(&self) -> u64 {
        match &self.state {
            Some(state) => state.tally.number,
            None => 0,
        }
    }

    fn last(&self, alloc: Global) -> Result<FinalState, NoMemory> {
        let Some(state) = &self.state else {
            return Err(NoMemory);
        };
        Ok(FinalState {
            linked: state.line.standings(alloc)?,
            shared: Sequence::from_slice(alloc, state.shared.as_slice())?,
        })
    }

    ghost is_of_scheduler = { λ e. refl };
}
