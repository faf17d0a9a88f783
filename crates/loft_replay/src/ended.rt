//! Whether a history has ended: no choice is allowed after it.

ghost use Rattle.std.specs.Prelude.{◌≡◌, OnOk, IfOk};
ghost use Rattle.loft_sense.specs.Machine.{heads as heads_of};
ghost use Rattle.loft_course.specs.Course.{IsRun, CanRun, Moves};
ghost use Rattle.loft_replay.specs.Whole.{choice_at, HasTried, GoesOnOrEnded};

use loft_base::{NoMemory, SchedId};
use loft_course::{BlockEngine, Course, Setting};
use loft_history::ended_histories_go_no_further;
use loft_sense::Engine;
use loft_tree::Heads;
use std::alloc::Global;

/// Who makes an entry, and which.
#[derive(Clone, Copy)]
enum Kind {
    /// A scheduler takes.
    Take,
    /// A scheduler gives.
    Give,
    /// A worker picks.
    Pick,
    /// A worker posts.
    Post,
    /// A client gives an order.
    Client,
}

/// Goes on by the choice of this kind with this number, where it is allowed. Answers whether it was.
fn try_one<X: Setting, E: Engine, B: BlockEngine>(
    alloc: Global,
    heads: &Heads,
    course: &mut Course<X, E, B>,
    kind: Kind,
    k: u32,
) -> Result<bool, NoMemory>
    requires run { IsRun X.program X.options course.old }
    requires can { CanRun X.program X.options }
    requires heads { heads.now ≡ heads_of X.program }
    ensures run { OnOk result (IsRun X.program X.options course.new) }
    ensures moves { IfOk result (λ moved. Moves X.program X.options course.old.world.history
        (choice_at kind k) moved course.new.world.history) }
{
    match kind {
        Kind::Take => course.take(alloc, SchedId(k)),
        Kind::Give => course.give(alloc, SchedId(k)),
        Kind::Pick => course.pick(alloc, k),
        Kind::Post => course.post(alloc, k),
        Kind::Client => course.client(alloc, heads, k),
    }
}

/// Goes on by the first choice of this kind that is allowed, of so many. Answers whether one was.
fn try_all<X: Setting, E: Engine, B: BlockEngine>(
    alloc: Global,
    heads: &Heads,
    course: &mut Course<X, E, B>,
    kind: Kind,
    count: u32,
) -> Result<bool, NoMemory>
    requires run { IsRun X.program X.options course.old }
    requires can { CanRun X.program X.options }
    requires heads { heads.now ≡ heads_of X.program }
    ensures run { OnOk result (IsRun X.program X.options course.new) }
    ensures tried { IfOk result (λ went. HasTried X.program X.options course.old.world.history
        (choice_at kind) count went course.new.world.history) }
{
    ended_histories_go_no_further();
    'choices: for k in 0..count {
        if try_one(alloc, heads, course, kind, k)? {
            return Ok(true);
        }
    }
    Ok(false)
}

/// Whether a history goes on: clients, workers and schedulers are asked in turn, and the first that has an entry to make
/// makes it. Where nobody has one, the history has ended and stays as it is.
pub(crate) fn goes_on<X: Setting, E: Engine, B: BlockEngine>(
    alloc: Global,
    heads: &Heads,
    course: &mut Course<X, E, B>,
    workers: u32,
) -> Result<bool, NoMemory>
    requires run { IsRun X.program X.options course.old }
    requires can { CanRun X.program X.options }
    requires heads { heads.now ≡ heads_of X.program }
    requires workers { workers ≡ X.options.workers }
    ensures run { OnOk result (IsRun X.program X.options course.new) }
    ensures ended { IfOk result (λ went. GoesOnOrEnded X.program X.options
        course.old.world.history went course.new.world.history) }
{
    let clients = heads.clients.len() as u32;
    let schedulers = heads.schedulers.len() as u32;
    if try_all(alloc, heads, course, Kind::Client, clients)? {
        return Ok(true);
    }
    if try_all(alloc, heads, course, Kind::Post, workers)? {
        return Ok(true);
    }
    if try_all(alloc, heads, course, Kind::Pick, workers)? {
        return Ok(true);
    }
    if try_all(alloc, heads, course, Kind::Take, schedulers)? {
        return Ok(true);
    }
    if try_all(alloc, heads, course, Kind::Give, schedulers)? {
        return Ok(true);
    }
    Ok(false)
}
