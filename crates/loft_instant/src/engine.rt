//! The engine over whatever runs one thread, and whatever makes the passes of an instant.

ghost use Rattle.std.specs.Prelude.{◌≡◌, ◌≤◌, false, is_none, IfOk, Some};
ghost use Rattle.loft_sense.specs.Machine.{empty};
ghost use Rattle.loft_base.specs.Options.{IsInRange};
ghost use Rattle.loft_instant.specs.declared.instant.State.{State as StateOf};
ghost use Rattle.loft_instant.specs.States.{machine_of, IsReady};

use crate::instant::{Setting, State};
use crate::rest::{all_rest, standings};
use crate::shared::own_of;
use loft_base::{Limits, NoMemory, SchedId, Sequence};
use loft_orders::{FinalState, InstantNote, Orders};
use loft_passes::{Interpreter, Passes};
use loft_sense::Engine;
use std::alloc::Global;

/// The engine of one scheduler: an instant changes what the definitions change, and after a failed allocation it makes no
/// further one.
#[derive(Drop)]
pub struct InstantEngine<I: Interpreter, P: Passes<I>> {
    setting: Setting<I>,
    passes: P,
    /// None after a failed allocation.
    state: Option<State>,
    ghost few_instants: { setting.limits.instants ≤ 1000000 },
    ghost ready: { (s : StateOf) → state ≡ Some s
        → IsReady setting.events setting.limits.instants s },
}

impl<I: Interpreter, P: Passes<I>> InstantEngine<I, P> {
    /// An engine that has made no instant of this scheduler, over what runs the threads of its program and
    /// what makes the passes over them. `NoMemory` comes where an allocation fails.
    pub fn new(
        alloc: Global,
        interpreter: I,
        passes: P,
        scheduler: SchedId,
        limits: Limits,
    ) -> Result<InstantEngine<I, P>, NoMemory>
        requires range { IsInRange limits }
        ensures program { IfOk result (λ e.
            ⟦<InstantEngine<I, P> as Engine>⟧.program e ≡ I.program interpreter) }
        ensures scheduler { IfOk result (λ e.
            ⟦<InstantEngine<I, P> as Engine>⟧.scheduler e ≡ scheduler) }
        ensures limits { IfOk result (λ e.
            ⟦<InstantEngine<I, P> as Engine>⟧.limits e ≡ limits) }
        ensures machine { IfOk result (λ e.
            ⟦<InstantEngine<I, P> as Engine>⟧.machine e ≡ empty (I.program interpreter) scheduler) }
        ensures works { IfOk result (λ e.
            ⟦<InstantEngine<I, P> as Engine>⟧.has_failed e ≡ false) }
    {
        let heads = interpreter.heads();
        let events = heads.events.len() as u32;
        let own = own_of(alloc, scheduler, heads.shared.as_slice())?;
        let state = State::first(alloc, scheduler, heads, events)?;
        let setting = Setting {
            interpreter,
            scheduler,
            limits,
            own,
            events,
        };
        Ok(InstantEngine {
            setting,
            passes,
            state: Some(state),
        })
    }
}

impl<I: Interpreter, P: Passes<I>> Engine for InstantEngine<I, P> {
    ghost use Rattle.std.specs.Prelude.{refl};

    ghost program = { λ e. I.program e.setting.interpreter };

    ghost scheduler = { λ e. e.setting.scheduler };

    ghost limits = { λ e. e.setting.limits };

    ghost machine = { λ e. machine_of e.setting.scheduler e.state };

    ghost has_failed = { λ e. is_none e.state };

    fn take(&mut self, alloc: Global, batch: &Orders) -> Result<InstantNote, NoMemory> {
        let Some(state) = self.state.take() else {
            return Err(NoMemory);
        };
        let (state, note) = self.setting.instant(alloc, &mut self.passes, state, batch)?;
        self.state = Some(state);
        Ok(note)
    }

    fn resting(&self) -> bool {
        match &self.state {
            Some(state) => all_rest(state.linked.as_slice(), &state.known),
            None => true,
        }
    }

    fn spent(&self) -> bool {
        match &self.state {
            Some(state) => {
                let heads = self.setting.interpreter.heads();
                state.tally.reaches_bound(heads, &self.setting.limits)
            }
            None => true,
        }
    }

    fn instant(&self) -> u64 {
        match &self.state {
            Some(state) => state.tally.number,
            None => 0,
        }
    }

    fn last(&self, alloc: Global) -> Result<FinalState, NoMemory> {
        let Some(state) = &self.state else {
            return Err(NoMemory);
        };
        Ok(FinalState {
            linked: standings(alloc, state.linked.as_slice())?,
            shared: Sequence::from_slice(alloc, state.shared.as_slice())?,
        })
    }

    ghost is_of_scheduler = { λ e. refl };
}
