//! A worker that goes on by itself.

ghost use Rattle.std.specs.Prelude.{◌≡◌, [], ℕ, List, Some, IfOk, OnErr, OnOk};
ghost use Rattle.loft_code.specs.View.{automata_of};
ghost use Rattle.loft_code.specs.declared.raw.CodeProgram.{CodeProgram};
ghost use Rattle.loft_job.specs.Job.{left_of_job};
ghost use Rattle.loft_orders.specs.declared.entry.Actor.TheVariants as actor;
ghost use Rattle.loft_orders.specs.declared.order.Sent.{Sent};
ghost use Rattle.loft_seat.specs.Seats.{entries_of, IsNewPass};
ghost use Rattle.loft_station.specs.Workers.{IsKept, IsReady, IsSame, HasToPost, Worked};
ghost use Rattle.loft_station.specs.Workers.{AddedJobAtMost, PostedBut, PostedNext, HasWorked, WentOn};

use crate::room::make_room;
use loft_base::{Gate, NoMemory, Turn};
use loft_baton::{Baton, Pass};
use loft_code::Code;
use loft_job::{Job, JobStep};
use loft_orders::Actor;
use loft_seat::{Seat, code_is_well_formed, pick, post};
use std::alloc::Global;
use std::sync::Wait;
use std::thread::Threads;

/// A worker with its pass, and how many steps a block makes at most; and whether memory was refused
/// in its last phase.
#[derive(Drop)]
pub struct Worker {
    pub seat: Seat,
    pub number: u32,
    pub block: u64,
    pub refused: bool,
}

impl Worker {
    /// A worker with a pass without entries. Its number is that of the pass's actor. It takes no
    /// memory.
    pub fn new(pass: Pass, block: u64) -> Worker
        requires pass { (w : ℕ) × IsNewPass (actor.Worker w) pass }
        ensures ready { (x : CodeProgram) → pass.knows.code ≡ Some x → IsReady pass.baton x result }
        ensures number { (w : ℕ) → IsNewPass (actor.Worker w) pass → result.number ≡ w }
        ensures block { result.block ≡ block }
        ensures pass { result.seat ≡ record { pass = pass; length = 0 } }
    {
        let number = match pass.one() {
            Some(Actor::Worker(number)) => number,
            _ => unreachable!(),
        };
        Worker {
            seat: Seat { pass, length: 0 },
            number,
            block,
            refused: false,
        }
    }

    /// The pass. It takes no memory.
    pub fn end(self) -> Pass
        ensures { result ≡ self.seat.pass }
    {
        self.seat.pass
    }

    /// Posts the next order of a job, where one is left. Answers whether one was.
    fn post_next<R: Wait>(
        &mut self,
        rt: &R,
        alloc: Global,
        b: &Baton,
        c: &Code,
        job: &mut Job,
    ) -> Result<bool, NoMemory>
        requires left { HasToPost b.now c.now (left_of_job (automata_of c.now) job.old) self.old }
        ensures kept { IsKept b.now c.now self.new }
        ensures same { IsSame self.old self.new }
        ensures posted { IfOk result
            (PostedNext b.now c.now self.old job.old self.new job.new) }
        ensures err { OnErr result (entries_of self.new.seat ≡ entries_of self.old.seat) }
    {
        match job.next(alloc, c)? {
            JobStep::Sent(sent) => {
                post(rt, alloc, b, c, &mut self.seat, self.number, &sent)?;
                Ok(true)
            }
            JobStep::Over => Ok(false),
        }
    }

    /// Posts all orders of a job.
    fn work<R: Wait>(
        &mut self,
        rt: &R,
        alloc: Global,
        b: &Baton,
        c: &Code,
        job: Job,
    ) -> Result<(), NoMemory>
        requires left { HasToPost b.now c.now (left_of_job (automata_of c.now) job) self.old }
        ensures kept { IsKept b.now c.now self.new }
        ensures same { IsSame self.old self.new }
        ensures ready { OnOk result (IsReady b.now c.now self.new) }
        ensures done { OnOk result
            (PostedBut (left_of_job (automata_of c.now) job) [] self.old self.new) }
        ensures err { OnErr result ((rest : List Sent)
            × PostedBut (left_of_job (automata_of c.now) job) rest self.old self.new) }
    {
        let mut job = job;
        'posts: loop {
            if !self.post_next(rt, alloc, b, c, &mut job)? {
                return Ok(());
            }
        }
    }

    /// One turn, where a thread waits for a worker: the worker picks it, passes the gate, and posts
    /// all that its block sends, order by order as the block makes them while the worker doesn't have
    /// the world. Answers whether a thread waited. Out of memory, it has the entries that it had, or a
    /// Pick more and some of the Posts of that job; it makes no further turn.
    pub fn turn<R: Threads + Wait + Sync, G: Gate>(
        &mut self,
        rt: &R,
        alloc: Global,
        b: &Baton,
        c: &Code,
        g: &G,
    ) -> Result<bool, NoMemory>
        requires ready { IsReady b.now c.now self.old }
        ensures kept { IsKept b.now c.now self.new }
        ensures same { IsSame self.old self.new }
        ensures ready { OnOk result (IsReady b.now c.now self.new) }
        ensures worked { IfOk result (Worked c.now self.old self.new) }
        ensures err { OnErr result (AddedJobAtMost c.now self.old self.new) }
    {
        code_is_well_formed(c);
        let Some(thread) = pick(rt, alloc, b, c, &mut self.seat, self.number)? else {
            return Ok(false);
        };
        g.pass(rt, Turn::Block { w: self.number });
        self.work(rt, alloc, b, c, Job::begin(thread, self.block))?;
        Ok(true)
    }

    /// At most 32 turns, as many as there are jobs.
    fn turns<R: Threads + Wait + Sync, G: Gate>(
        &mut self,
        rt: &R,
        alloc: Global,
        b: &Baton,
        c: &Code,
        g: &G,
    ) -> Result<(), NoMemory>
        requires ready { IsReady b.now c.now self.old }
        ensures kept { IsKept b.now c.now self.new }
        ensures same { IsSame self.old self.new }
        ensures ready { OnOk result (IsReady b.now c.now self.new) }
        ensures made { OnOk result (HasWorked 32 self.old self.new) }
    {
        for turn in 0..32u32 {
            if !self.turn(rt, alloc, b, c, g)? {
                return Ok(());
            }
        }
        Ok(())
    }

    /// Its share of a phase: at most 32 turns, as many as there are jobs. It notes whether memory was
    /// refused.
    pub fn go_on<R: Threads + Wait + Sync, G: Gate>(
        &mut self,
        rt: &R,
        alloc: Global,
        b: &Baton,
        c: &Code,
        g: &G,
    )
        requires ready { IsReady b.now c.now self.old }
        ensures { WentOn b.now c.now self.old self.new }
    {
        make_room(alloc);
        let done = self.turns(rt, alloc, b, c, g);
        self.refused = done.is_err();
    }
}
