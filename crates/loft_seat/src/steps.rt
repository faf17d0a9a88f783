//! The steps of actors: each waits for the world, makes at most one entry, and gives the world back.

ghost use Rattle.std.specs.Prelude.{◌≡◌, true, false, All, IsTrue, IfOk, IfSome, IfNone, OnOk, OnErr};
ghost use Rattle.loft_code.specs.View.{automata_of};
ghost use Rattle.loft_orders.specs.declared.entry.Actor.TheVariants.{Sched, Worker, Client};
ghost use Rattle.loft_orders.specs.declared.entry.Entry.TheVariants as entry;
ghost use Rattle.loft_sense.specs.Machine.{Code as ByCode};
ghost use Rattle.loft_history.specs.History.{is_open, is_busy, sent_last};
ghost use Rattle.loft_soundness.specs.Machines.{SentFits};
ghost use Rattle.loft_soundness.specs.WellFormed.{IsWellFormed};
ghost use Rattle.loft_tree.specs.NamedFits.{IsScheduler};
ghost use Rattle.loft_world.specs.State.{IsToOne, IsForClients, IsQuiet};
ghost use Rattle.loft_seat.specs.Seats.{entries_of, HasSame, HasMore, Takes, Idles, Picks, Finds};

use crate::seat::Seat;
use loft_base::{NoMemory, SchedId};
use loft_baton::Baton;
use loft_code::Code;
use loft_orders::{Orders, Sent, Thread};
use loft_sense::Engine;
use loft_turn_parts::{give_last, take_where_due};
use loft_world::NoteList;
use std::alloc::Global;
use std::sync::Wait;

/// Valid code is a well-formed program. The call does nothing: it tells a proof what the type knows.
pub fn code_is_well_formed(c: &Code)
    ensures { IsWellFormed (ByCode (automata_of c.now)) }
{
    let _program = c.program();
}

/// A scheduler takes what waits for it, where it has a turn to make on that. None where it has none.
/// Out of memory, no entry is added.
pub fn take<R: Wait, E: Engine>(
    rt: &R,
    alloc: Global,
    b: &Baton,
    c: &Code,
    seat: &mut Seat,
    s: SchedId,
    engine: &E,
) -> Result<Option<Orders>, NoMemory>
    requires seat { HasSame b.now c.now (Sched s) seat.old seat.old }
    requires declared { IsScheduler c.now.heads s }
    requires closed { is_open s (entries_of seat.old) ≡ false }
    requires works { E.has_failed engine.now ≡ false }
    ensures took { IfOk result (λ taken. IfSome taken (Takes b.now c.now s (E.program engine.now)
        (E.limits engine.now) (E.machine engine.now) seat.old seat.new)) }
    ensures none { IfOk result (λ taken. IfNone taken (Idles b.now c.now s (E.program engine.now)
        (E.limits engine.now) (E.machine engine.now) seat.old seat.new)) }
    ensures err { OnErr result (HasSame b.now c.now (Sched s) seat.old seat.new) }
{
    code_is_well_formed(c);
    let mut held = b.hold(rt, &mut seat.pass);
    let taken = take_where_due(alloc, engine, s, held.world());
    seat.length = held.world().length();
    b.release(rt, held, &mut seat.pass);
    taken
}

/// A scheduler gives what its last instant sent. Out of memory, no entry is added.
pub fn give<R: Wait>(
    rt: &R,
    alloc: Global,
    b: &Baton,
    c: &Code,
    seat: &mut Seat,
    s: SchedId,
    notes: &NoteList,
) -> Result<(), NoMemory>
    requires seat { HasSame b.now c.now (Sched s) seat.old seat.old }
    requires declared { IsScheduler c.now.heads s }
    requires open { is_open s (entries_of seat.old) ≡ true }
    requires fits { All (SentFits (ByCode (automata_of c.now))) (sent_last notes.now) }
    ensures ok { OnOk result (HasMore b.now c.now (Sched s) (entry.Give s (sent_last notes.now))
        seat.old seat.new) }
    ensures err { OnErr result (HasSame b.now c.now (Sched s) seat.old seat.new) }
{
    let _code = c;
    let mut held = b.hold(rt, &mut seat.pass);
    let done = give_last(alloc, s, notes, held.world());
    seat.length = held.world().length();
    b.release(rt, held, &mut seat.pass);
    done
}

/// Whether nothing waits for anybody, as a scheduler finds it: no thread for a worker, and no order for
/// a scheduler. It makes no entry.
pub fn sees_quiet<R: Wait>(rt: &R, b: &Baton, c: &Code, seat: &mut Seat, s: SchedId) -> bool
    requires seat { HasSame b.now c.now (Sched s) seat.old seat.old }
    ensures kept { HasSame b.now c.now (Sched s) seat.old seat.new }
    ensures quiet { IsTrue result → IsQuiet c.now.heads seat.new.pass.knows.seen }
{
    let (_code, _scheduler) = (c, s);
    let mut held = b.hold(rt, &mut seat.pass);
    let quiet = held.world().is_quiet();
    seat.length = held.world().length();
    b.release(rt, held, &mut seat.pass);
    quiet
}

/// A worker picks the thread that has waited longest. None where no thread waits. Out of memory, no
/// entry is added.
pub fn pick<R: Wait>(
    rt: &R,
    alloc: Global,
    b: &Baton,
    c: &Code,
    seat: &mut Seat,
    w: u32,
) -> Result<Option<Thread>, NoMemory>
    requires seat { HasSame b.now c.now (Worker w) seat.old seat.old }
    requires free { is_busy w (entries_of seat.old) ≡ false }
    ensures picked { IfOk result (λ job. IfSome job (Picks b.now c.now w seat.old seat.new)) }
    ensures none { IfOk result (λ job. IfNone job (Finds b.now c.now w seat.old seat.new)) }
    ensures err { OnErr result (HasSame b.now c.now (Worker w) seat.old seat.new) }
{
    let _code = c;
    let mut held = b.hold(rt, &mut seat.pass);
    let picked = held.world().pick(alloc, w);
    seat.length = held.world().length();
    b.release(rt, held, &mut seat.pass);
    picked
}

/// A worker posts one order of its job in hand. Out of memory, no entry is added.
pub fn post<R: Wait>(
    rt: &R,
    alloc: Global,
    b: &Baton,
    c: &Code,
    seat: &mut Seat,
    w: u32,
    sent: &Sent,
) -> Result<(), NoMemory>
    requires seat { HasSame b.now c.now (Worker w) seat.old seat.old }
    requires busy { is_busy w (entries_of seat.old) ≡ true }
    requires fits { SentFits (ByCode (automata_of c.now)) sent.now }
    ensures ok { OnOk result (HasMore b.now c.now (Worker w) (entry.Post w sent.now)
        seat.old seat.new) }
    ensures err { OnErr result (HasSame b.now c.now (Worker w) seat.old seat.new) }
{
    let _code = c;
    let mut held = b.hold(rt, &mut seat.pass);
    let done = held.world().post(alloc, w, sent);
    seat.length = held.world().length();
    b.release(rt, held, &mut seat.pass);
    done
}

/// A client gives one order. The answer is the position of its entry in the history, counted from 1.
/// Out of memory, no entry is added.
pub fn give_order<R: Wait>(
    rt: &R,
    alloc: Global,
    b: &Baton,
    c: &Code,
    seat: &mut Seat,
    client: u32,
    sent: &Sent,
) -> Result<u64, NoMemory>
    requires seat { HasSame b.now c.now (Client client) seat.old seat.old }
    requires one { IsToOne c.now.heads sent.now.to }
    requires kind { IsForClients sent.now.order }
    requires fits { SentFits (ByCode (automata_of c.now)) sent.now }
    ensures ok { OnOk result (HasMore b.now c.now (Client client) (entry.Client client sent.now)
        seat.old seat.new) }
    ensures err { OnErr result (HasSame b.now c.now (Client client) seat.old seat.new) }
{
    let _code = c;
    let mut held = b.hold(rt, &mut seat.pass);
    let done = held.world().client(alloc, client, sent);
    seat.length = held.world().length();
    b.release(rt, held, &mut seat.pass);
    done
}
