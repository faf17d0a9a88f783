//! A run so far, and how it goes on by one choice.

ghost use Rattle.std.specs.Prelude.{◌≡◌, [], length, IfOk, OnOk};
ghost use Rattle.loft_sense.specs.Machine.{heads as heads_of};
ghost use Rattle.loft_history.specs.History.{TakeBy, GiveBy, PickBy, PostBy, ClientBy};
ghost use Rattle.loft_world.specs.Replay.{IsReplayOf};
ghost use Rattle.loft_course.specs.Course.{IsRun, CanRun, Moves, stands_after, hands_after};

use crate::block_engine::BlockEngine;
use crate::setting::Setting;
use crate::station::{Station, finish_all};
use crate::worker::Worker;
use loft_base::{NoMemory, SchedId};
use loft_sense::Engine;
use loft_tree::Heads;
use loft_turn_parts::next_order;
use loft_world::{Finals, Finished, Notes, World};
use std::alloc::Global;
use std::marker::Model;

/// A run so far: its world, its schedulers in the order of their declarations, its workers in the
/// order of their numbers, and how many orders each client of the source has given.
#[derive(Drop)]
pub struct Course<X: Setting, E: Engine, B: BlockEngine> {
    world: World,
    stations: Vec<Station<X, E>>,
    workers: Vec<Worker<X, B>>,
    given: Vec<usize>,
}

impl<X: Setting, E: Engine, B: BlockEngine> Model for Course<X, E, B> {
    ghost use Rattle.loft_course.specs.Course.{Course};

    ghost Value = { Course };

    ghost view = { λ c. record {
      world = c.world;
      stations = c.stations.items;
      workers = c.workers.items;
      given = c.given.items;
    } };
}

impl<X: Setting, E: Engine, B: BlockEngine> Course<X, E, B> {
    /// A run without entries, of schedulers before their first instant and workers before their first
    /// job.
    pub fn new(
        alloc: Global,
        heads: &Heads,
        stations: Vec<Station<X, E>>,
        workers: Vec<Worker<X, B>>,
    ) -> Result<Course<X, E, B>, NoMemory>
        requires heads { heads.now ≡ heads_of X.program }
        requires stations { stations.items ≡ stands_after X.program X.options []
            (length (heads_of X.program).schedulers) }
        requires workers { workers.items ≡ hands_after X.program X.options []
            X.options.workers }
        ensures run { IfOk result (λ c. IsRun X.program X.options c) }
        ensures start { IfOk result (λ c. c.world.history ≡ []) }
    {
        let mut given = Vec::new(alloc);
        for _ in 0..heads.clients.len() {
            given.push(0)?;
        }
        Ok(Course {
            world: World::make(alloc, heads)?,
            stations,
            workers,
            given,
        })
    }

    /// The scheduler takes what waits for it, where that is allowed. Its instant is made as it gives.
    /// Answers whether it was allowed.
    pub fn take(&mut self, alloc: Global, s: SchedId) -> Result<bool, NoMemory>
        requires run { IsRun X.program X.options self.old }
        requires can { CanRun X.program X.options }
        ensures run { OnOk result (IsRun X.program X.options self.new) }
        ensures moves { IfOk result (λ moved. Moves X.program X.options self.old.world.history
            (TakeBy s) moved self.new.world.history) }
    {
        let at = s.0 as usize;
        if at >= self.stations.len() {
            return Ok(false);
        }
        self.stations[at].take(alloc, s, &mut self.world)
    }

    /// The scheduler makes its instant and gives what that sent, where that is allowed. Answers whether
    /// it was.
    pub fn give(&mut self, alloc: Global, s: SchedId) -> Result<bool, NoMemory>
        requires run { IsRun X.program X.options self.old }
        requires can { CanRun X.program X.options }
        ensures run { OnOk result (IsRun X.program X.options self.new) }
        ensures moves { IfOk result (λ moved. Moves X.program X.options self.old.world.history
            (GiveBy s) moved self.new.world.history) }
    {
        let at = s.0 as usize;
        if at >= self.stations.len() {
            return Ok(false);
        }
        self.stations[at].give(alloc, s, &mut self.world)
    }

    /// The worker picks the thread that has waited longest, where that is allowed. Answers whether it
    /// was.
    pub fn pick(&mut self, alloc: Global, w: u32) -> Result<bool, NoMemory>
        requires run { IsRun X.program X.options self.old }
        requires can { CanRun X.program X.options }
        ensures run { OnOk result (IsRun X.program X.options self.new) }
        ensures moves { IfOk result (λ moved. Moves X.program X.options self.old.world.history
            (PickBy w) moved self.new.world.history) }
    {
        let at = w as usize;
        if at >= self.workers.len() {
            return Ok(false);
        }
        self.workers[at].pick(alloc, w, &mut self.world)
    }

    /// The worker posts the next order of its job in hand, where that is allowed. Answers whether it
    /// was.
    pub fn post(&mut self, alloc: Global, w: u32) -> Result<bool, NoMemory>
        requires run { IsRun X.program X.options self.old }
        requires can { CanRun X.program X.options }
        ensures run { OnOk result (IsRun X.program X.options self.new) }
        ensures moves { IfOk result (λ moved. Moves X.program X.options self.old.world.history
            (PostBy w) moved self.new.world.history) }
    {
        let at = w as usize;
        if at >= self.workers.len() {
            return Ok(false);
        }
        self.workers[at].post(alloc, w, &mut self.world)
    }

    /// The client gives its next order, where it has one. Answers whether it had.
    pub fn client(&mut self, alloc: Global, heads: &Heads, c: u32) -> Result<bool, NoMemory>
        requires run { IsRun X.program X.options self.old }
        requires can { CanRun X.program X.options }
        requires heads { heads.now ≡ heads_of X.program }
        ensures run { OnOk result (IsRun X.program X.options self.new) }
        ensures moves { IfOk result (λ moved. Moves X.program X.options self.old.world.history
            (ClientBy c) moved self.new.world.history) }
    {
        let at = c as usize;
        if at >= self.given.len() {
            return Ok(false);
        }
        let given = self.given[at];
        let creates = self.world.creates(c);
        let Some(sent) = next_order(alloc, heads, c, given, creates)? else {
            return Ok(false);
        };
        let gave = self.world.client(alloc, c, &sent);
        drop(sent);
        gave?;
        self.given[at] = given + 1;
        Ok(true)
    }

    /// What the run leaves: its world, the notes, and how each scheduler stands.
    pub fn finish(self, alloc: Global) -> Result<Finished, NoMemory>
        requires run { IsRun X.program X.options self }
        ensures world { IfOk result (λ run. run.world ≡ self.world) }
        ensures replay { IfOk result (λ run. IsReplayOf X.program X.options.limits
            self.world.history run.notes.of run.finals.of) }
    {
        let Course {
            world,
            stations,
            ..
        } = self;
        match finish_all(alloc, stations) {
            Ok((notes, finals)) => Ok(Finished {
                world,
                notes: Notes { of: notes },
                finals: Finals { of: finals },
            }),
            Err(error) => {
                drop(world);
                Err(error)
            }
        }
    }
}
