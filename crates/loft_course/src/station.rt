//! One scheduler in a run.

ghost use Rattle.std.specs.Prelude.{◌≡◌, ◌++◌, ◌∷◌, [], ℕ, false, map, All, IfOk, OnOk};
ghost use Rattle.loft_sense.specs.Fits.{Fits};
ghost use Rattle.loft_sense.specs.Machine.{empty, heads as heads_of};
ghost use Rattle.loft_history.specs.History.{TakeBy, GiveBy, waiting};
ghost use Rattle.loft_sense.specs.Heads.{scheduler};
ghost use Rattle.loft_tree.specs.NamedFits.{IsScheduler};
ghost use Rattle.loft_world.specs.Replay.{stand_of};
ghost use Rattle.loft_course.specs.Course.{Moves, stand_after, IsLast};
ghost use Rattle.loft_course.specs.Turning.{settled, CanMake};

use crate::setting::Setting;
use loft_base::{NoMemory, SchedId, Sequence};
use loft_orders::{FinalState, Orders};
use loft_sense::Engine;
use loft_turn_parts::{give_last, make_instant, take_where_due};
use loft_world::{FinalStates, NoteList, NoteLists, World};
use std::alloc::Global;
use std::marker::{Model, PhantomData};
use std::mem;

/// How far a scheduler's turn is.
#[derive(Drop)]
enum Stage {
    /// It is in none.
    Between,
    /// It has taken these orders, and its instant on them is still to be made.
    Taken(Orders),
    /// Its instant is made, and what that sent is still to be given.
    Made,
}

/// A scheduler in a run: its engine, the notes of its instants, and how far its turn is. Between a take
/// and the give that follows it is seen as after its instant, also where that is still to be made.
#[derive(Drop)]
pub struct Station<X: Setting, E: Engine> {
    engine: E,
    notes: NoteList,
    stage: Stage,
    of: PhantomData<X>,
}

impl<X: Setting, E: Engine> Model for Station<X, E> {
    ghost use Rattle.std.specs.Prelude.{◌≡◌};
    ghost use Rattle.loft_course.specs.Course.{Stand};
    ghost use Rattle.loft_course.specs.Turning.{is_in_turn, settled, CanMake};

    ghost Value = { Stand };

    ghost view = { λ t. record {
      scheduler = E.scheduler t.engine;
      failed = E.has_failed t.engine;
      machine = (settled (E.program t.engine) (E.limits t.engine) (E.machine t.engine)
          t.notes t.stage).machine;
      notes = (settled (E.program t.engine) (E.limits t.engine) (E.machine t.engine)
          t.notes t.stage).notes;
      running = is_in_turn t.stage;
    } };

    ghost invariant = { λ t. ((E.program t.engine ≡ X.program)
        × (E.limits t.engine ≡ X.options.limits))
        × CanMake (E.program t.engine) (E.limits t.engine) (E.scheduler t.engine)
        (E.has_failed t.engine) (E.machine t.engine) t.stage };
}

/// Makes the instant that is still to be made, if any.
fn settle<E: Engine>(
    alloc: Global,
    engine: &mut E,
    notes: &mut NoteList,
    stage: Stage,
) -> Result<(), NoMemory>
    requires { CanMake (E.program engine.old) (E.limits engine.old) (E.scheduler engine.old)
        (E.has_failed engine.old) (E.machine engine.old) stage }
    ensures machine { OnOk result (E.machine engine.new ≡ (settled (E.program engine.old)
        (E.limits engine.old) (E.machine engine.old) notes.old stage).machine) }
    ensures notes { OnOk result (notes.new ≡ (settled (E.program engine.old)
        (E.limits engine.old) (E.machine engine.old) notes.old stage).notes) }
    ensures works { OnOk result (E.has_failed engine.new ≡ E.has_failed engine.old) }
    ensures same_program { E.program engine.new ≡ E.program engine.old }
    ensures same_scheduler { E.scheduler engine.new ≡ E.scheduler engine.old }
    ensures same_limits { E.limits engine.new ≡ E.limits engine.old }
{
    match stage {
        Stage::Taken(batch) => make_instant(alloc, engine, notes, &batch),
        Stage::Between | Stage::Made => Ok(()),
    }
}

impl<X: Setting, E: Engine> Station<X, E> {
    /// A scheduler before its first instant, with an engine that has made none.
    pub fn new(alloc: Global, engine: E) -> Station<X, E>
        requires program { E.program engine ≡ X.program }
        requires limits { E.limits engine ≡ X.options.limits }
        requires fresh { E.machine engine ≡ empty X.program (E.scheduler engine) }
        requires works { E.has_failed engine ≡ false }
        ensures { (k : ℕ) → E.scheduler engine ≡ scheduler k
            → result ≡ stand_after X.program X.options [] k }
    {
        Station {
            engine,
            notes: Sequence::new(alloc),
            stage: Stage::Between,
            of: PhantomData,
        }
    }

    /// Takes what waits for the scheduler, where it has a turn to make. Its instant is made later,
    /// outside the world. Answers whether it has taken.
    pub(crate) fn take(
        &mut self,
        alloc: Global,
        s: SchedId,
        world: &mut World,
    ) -> Result<bool, NoMemory>
        requires declared { IsScheduler world.old.heads s }
        requires heads { world.old.heads ≡ heads_of X.program }
        requires stands { self.old ≡ stand_after X.program X.options world.old.history s.0 }
        requires fits { All (Fits X.program s) (waiting (heads_of X.program) s world.old.history) }
        ensures stands { OnOk result
            (self.new ≡ stand_after X.program X.options world.new.history s.0) }
        ensures moves { IfOk result (λ moved. Moves X.program X.options world.old.history
            (TakeBy s) moved world.new.history) }
        ensures heads { OnOk result (world.new.heads ≡ world.old.heads) }
    {
        if self.is_in_turn() {
            return Ok(false);
        }
        let Some(batch) = take_where_due(alloc, &self.engine, s, world)? else {
            return Ok(false);
        };
        self.stage = Stage::Taken(batch);
        Ok(true)
    }

    /// Whether it has taken, and has still to give.
    fn is_in_turn(&self) -> bool
        ensures { result ≡ self.now.running }
    {
        !matches!(self.stage, Stage::Between)
    }

    /// Makes the instant on what it has taken, where that is still to be made, and gives what it
    /// sent, where the scheduler is in one. Answers whether it has given.
    pub(crate) fn give(
        &mut self,
        alloc: Global,
        s: SchedId,
        world: &mut World,
    ) -> Result<bool, NoMemory>
        requires declared { IsScheduler world.old.heads s }
        requires heads { world.old.heads ≡ heads_of X.program }
        requires stands { self.old ≡ stand_after X.program X.options world.old.history s.0 }
        ensures stands { OnOk result
            (self.new ≡ stand_after X.program X.options world.new.history s.0) }
        ensures moves { IfOk result (λ moved. Moves X.program X.options world.old.history
            (GiveBy s) moved world.new.history) }
        ensures heads { OnOk result (world.new.heads ≡ world.old.heads) }
    {
        if !self.is_in_turn() {
            return Ok(false);
        }
        let stage = mem::replace(&mut self.stage, Stage::Made);
        settle(alloc, &mut self.engine, &mut self.notes, stage)?;
        give_last(alloc, s, &self.notes, world)?;
        self.stage = Stage::Between;
        Ok(true)
    }

    /// The notes of its instants, and how it stands.
    fn finish(self, alloc: Global) -> Result<(NoteList, FinalState), NoMemory>
        ensures { IfOk result (λ last. IsLast self last.0 last.1) }
    {
        let Station {
            mut engine,
            mut notes,
            stage,
            ..
        } = self;
        settle(alloc, &mut engine, &mut notes, stage)?;
        let last = engine.last(alloc)?;
        Ok((notes, last))
    }

    /// Adds the notes of its instants and how it stands to those of the schedulers before it.
    fn finish_onto(
        self,
        alloc: Global,
        notes: &mut NoteLists,
        finals: &mut FinalStates,
    ) -> Result<(), NoMemory>
        ensures notes { OnOk result (notes.new ≡ notes.old ++ self.notes ∷ []) }
        ensures finals { OnOk result (finals.new ≡ finals.old ++ stand_of self.machine ∷ []) }
    {
        let (own, last) = self.finish(alloc)?;
        notes.push(own)?;
        finals.push(last)
    }
}

/// The notes of schedulers, and how each stands, in the order of the schedulers.
pub(crate) fn finish_all<X: Setting, E: Engine>(
    alloc: Global,
    stations: Vec<Station<X, E>>,
) -> Result<(NoteLists, FinalStates), NoMemory>
    ensures notes { IfOk result (λ left. left.0 ≡ map (λ s. s.notes) stations.items) }
    ensures finals { IfOk result (λ left. left.1 ≡ map (λ s. stand_of s.machine) stations.items) }
{
    let mut notes = Sequence::new(alloc);
    let mut finals = Sequence::new(alloc);
    for station in stations {
        station.finish_onto(alloc, &mut notes, &mut finals)?;
    }
    Ok((notes, finals))
}
