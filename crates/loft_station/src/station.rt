//! A scheduler that goes on by itself.

ghost use Rattle.std.specs.Prelude.{◌≡◌, ◌∷◌, ◌++◌, [], List, Some, false, IsTrue, IfOk, IfNone, IfSome, OnErr, OnOk};
ghost use Rattle.loft_code.specs.View.{automata_of};
ghost use Rattle.loft_code.specs.declared.raw.CodeProgram.{CodeProgram};
ghost use Rattle.loft_orders.specs.declared.entry.Actor.TheVariants.{Sched};
ghost use Rattle.loft_orders.specs.declared.entry.Entry.{Entry};
ghost use Rattle.loft_orders.specs.declared.entry.Entry.TheVariants as entry;
ghost use Rattle.loft_sense.specs.Machine.{Code as ByCode, empty};
ghost use Rattle.loft_history.specs.History.{has_turn, sent_last, waiting};
ghost use Rattle.loft_seat.specs.Seats.{entries_of, IsNewPass};
ghost use Rattle.loft_station.specs.Stations.{IsKept, IsReady, HasTaken, IsSame, Turned};
ghost use Rattle.loft_station.specs.Stations.{AddedTakeAtMost, HasMade, WentOn};
ghost use Rattle.loft_tree.specs.NamedFits.{IsScheduler};
ghost use Rattle.loft_world.specs.State.{IsQuiet};

use crate::room::make_room;
use loft_base::{Gate, NoMemory, SchedId, Sequence, Turn};
use loft_baton::{Baton, Pass};
use loft_code::Code;
use loft_orders::{Actor, Orders};
use loft_seat::{Seat, code_is_well_formed, give, sees_quiet, take};
use loft_sense::Engine;
use loft_turn_parts::make_instant;
use loft_world::{NoteList, World};
use std::alloc::Global;
use std::marker::Model;
use std::sync::Wait;
use std::thread::Threads;

/// A scheduler with its engine, its pass, and the notes of its instants; and whether memory was
/// refused in its last phase.
#[derive(Drop)]
pub struct Station<E: Engine> {
    engine: E,
    seat: Seat,
    s: SchedId,
    notes: NoteList,
    refused: bool,
}

impl<E: Engine> Model for Station<E> {
    ghost use Rattle.std.specs.Prelude.{◌≡◌};
    ghost use Rattle.loft_station.specs.Stations.{StationView};

    ghost Value = { StationView };

    ghost use Rattle.loft_tree.specs.contracts.named.NamedExpr as term;
    ghost use Rattle.std.specs.Coded.{codes};

    ghost coded = { Prim.hlevel (codes, term.the_row.coded) };

    ghost view = { λ t. record {
      seat = t.seat;
      scheduler = t.s;
      limits = E.limits t.engine;
      machine = E.machine t.engine;
      failed = E.has_failed t.engine;
      notes = t.notes;
      refused = t.refused;
    } };

    ghost use Rattle.loft_station.specs.Stations.{RunsCode};

    ghost invariant = { λ t. (E.scheduler t.engine ≡ t.s) × RunsCode (E.program t.engine) t.seat };
}

impl<E: Engine> Station<E> {
    /// A scheduler with an engine that has made no instant, and a pass without entries, which is for
    /// the code that the engine runs. It takes no memory.
    pub fn new(alloc: Global, engine: E, pass: Pass) -> Station<E>
        requires pass { IsNewPass (Sched (E.scheduler engine)) pass }
        requires code { (x : CodeProgram) → pass.knows.code ≡ Some x
            → E.program engine ≡ ByCode (automata_of x) }
        requires fresh { E.machine engine ≡ empty (E.program engine) (E.scheduler engine) }
        requires works { E.has_failed engine ≡ false }
        ensures ready { (x : CodeProgram) → pass.knows.code ≡ Some x
            → IsScheduler x.heads (E.scheduler engine) → IsReady pass.baton x result }
        ensures scheduler { result.scheduler ≡ E.scheduler engine }
        ensures limits { result.limits ≡ E.limits engine }
        ensures pass { result.seat ≡ record { pass = pass; length = 0 } }
        ensures refused { result.refused ≡ false }
    {
        let s = match pass.one() {
            Some(Actor::Sched(s)) => s,
            _ => unreachable!(),
        };
        Station {
            engine,
            seat: Seat { pass, length: 0 },
            s,
            notes: Sequence::new(alloc),
            refused: false,
        }
    }

    /// The engine, the notes of its instants in order, and the pass. It takes no memory.
    pub fn end(self) -> (E, NoteList, Pass)
        ensures program { (x : CodeProgram) → self.seat.pass.knows.code ≡ Some x
            → E.program result.0 ≡ ByCode (automata_of x) }
        ensures scheduler { E.scheduler result.0 ≡ self.scheduler }
        ensures limits { E.limits result.0 ≡ self.limits }
        ensures machine { E.machine result.0 ≡ self.machine }
        ensures works { E.has_failed result.0 ≡ self.failed }
        ensures notes { result.1 ≡ self.notes }
        ensures pass { result.2 ≡ self.seat.pass }
    {
        (self.engine, self.notes, self.seat.pass)
    }

    /// Begins a turn, where there is one to make.
    fn begin_turn<R: Wait>(
        &mut self,
        rt: &R,
        alloc: Global,
        b: &Baton,
        c: &Code,
    ) -> Result<Option<Orders>, NoMemory>
        requires ready { IsReady b.now c.now self.old }
        ensures same { IsSame self.old self.new }
        ensures took { IfOk result (λ taken. IfSome taken
            (HasTaken b.now c.now (entries_of self.old.seat) self.new)) }
        ensures none { IfOk result (λ taken. IfNone taken (IsReady b.now c.now self.new
            × Turned c.now self.old self.new false)) }
        ensures err { OnErr result (IsKept b.now c.now self.new
            × (entries_of self.new.seat ≡ entries_of self.old.seat)) }
    {
        take(rt, alloc, b, c, &mut self.seat, self.s, &self.engine)
    }

    /// Ends a turn: the gate, the instant, and the Give of what that sent.
    fn end_turn<R: Threads + Wait + Sync, G: Gate>(
        &mut self,
        rt: &R,
        alloc: Global,
        b: &Baton,
        c: &Code,
        g: &G,
        batch: &Orders,
    ) -> Result<(), NoMemory>
        requires taken { (before : List Entry) × HasTaken b.now c.now before self.old batch.now }
        ensures kept { IsKept b.now c.now self.new }
        ensures same { IsSame self.old self.new }
        ensures ready { OnOk result (IsReady b.now c.now self.new) }
        ensures gave { OnOk result (entries_of self.new.seat ≡ entries_of self.old.seat
            ++ entry.Give self.new.scheduler (sent_last self.new.notes) ∷ []) }
        ensures err { OnErr result (entries_of self.new.seat ≡ entries_of self.old.seat) }
    {
        code_is_well_formed(c);
        let number = self.engine.instant().saturating_add(1);
        g.pass(rt, Turn::Instant { s: self.s, number });
        make_instant(alloc, &mut self.engine, &mut self.notes, batch)?;
        give(rt, alloc, b, c, &mut self.seat, self.s, &self.notes)
    }

    /// One turn, where there is one to make: the scheduler takes what waits for it, passes the gate,
    /// makes an instant on that while it doesn't have the world, and gives what the instant sent.
    /// Answers whether it had one. Out of memory, it has at most a Take more, and makes no further
    /// turn.
    pub fn turn<R: Threads + Wait + Sync, G: Gate>(
        &mut self,
        rt: &R,
        alloc: Global,
        b: &Baton,
        c: &Code,
        g: &G,
    ) -> Result<bool, NoMemory>
        requires ready { IsReady b.now c.now self.old }
        ensures kept { IsKept b.now c.now self.new }
        ensures same { IsSame self.old self.new }
        ensures ready { OnOk result (IsReady b.now c.now self.new) }
        ensures turned { IfOk result (Turned c.now self.old self.new) }
        ensures err { OnErr result (AddedTakeAtMost self.old self.new) }
    {
        let Some(batch) = self.begin_turn(rt, alloc, b, c)? else {
            return Ok(false);
        };
        self.end_turn(rt, alloc, b, c, g, &batch)?;
        Ok(true)
    }

    /// At most 32 turns, as many as there are to make.
    fn turns<R: Threads + Wait + Sync, G: Gate>(
        &mut self,
        rt: &R,
        alloc: Global,
        b: &Baton,
        c: &Code,
        g: &G,
    ) -> Result<(), NoMemory>
        requires ready { IsReady b.now c.now self.old }
        ensures kept { IsKept b.now c.now self.new }
        ensures same { IsSame self.old self.new }
        ensures ready { OnOk result (IsReady b.now c.now self.new) }
        ensures made { OnOk result (HasMade 32 c.now self.old self.new) }
    {
        for turn in 0..32u32 {
            if !self.turn(rt, alloc, b, c, g)? {
                return Ok(());
            }
        }
        Ok(())
    }

    /// Its share of a phase: at most 32 turns, as many as there are to make. It notes whether memory
    /// was refused.
    pub fn go_on<R: Threads + Wait + Sync, G: Gate>(
        &mut self,
        rt: &R,
        alloc: Global,
        b: &Baton,
        c: &Code,
        g: &G,
    )
        requires ready { IsReady b.now c.now self.old }
        ensures { WentOn b.now c.now self.old self.new }
    {
        make_room(alloc);
        let done = self.turns(rt, alloc, b, c, g);
        self.refused = done.is_err();
    }

    /// Whether nothing waits for anybody, as it finds it: no thread for a worker, and no order for a
    /// scheduler. It may wait, and makes no entry.
    pub fn finds_quiet<R: Wait>(&mut self, rt: &R, b: &Baton, c: &Code) -> bool
        requires ready { IsReady b.now c.now self.old }
        ensures ready { IsReady b.now c.now self.new }
        ensures same { IsSame self.old self.new }
        ensures entries { entries_of self.new.seat ≡ entries_of self.old.seat }
        ensures quiet { IsTrue result → IsQuiet c.now.heads self.new.seat.pass.knows.seen }
    {
        sees_quiet(rt, b, c, &mut self.seat, self.s)
    }

    /// Whether memory was refused in its last phase.
    pub fn is_refused(&self) -> bool
        ensures { result ≡ self.now.refused }
    {
        self.refused
    }

    /// How many entries the history had when it saw it last: 0 before it has seen any.
    pub fn saw(&self) -> u64
        ensures { result ≡ self.now.seat.length }
    {
        self.seat.length
    }

    /// Whether it has a turn to make on what waits for it in this world.
    pub fn is_due(&self, world: &World) -> bool
        requires declared { IsScheduler world.now.heads self.now.scheduler }
        requires works { self.now.failed ≡ false }
        ensures { (x : CodeProgram) → self.now.seat.pass.knows.code ≡ Some x
            → result ≡ has_turn (ByCode (automata_of x)) self.now.limits self.now.machine
            (waiting world.now.heads self.now.scheduler world.now.history) }
    {
        let rests = self.engine.resting() && world.left(self.s).is_empty();
        !self.engine.spent() && !rests
    }
}
