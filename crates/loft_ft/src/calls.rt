//! The calls by which a host program's own threads give orders (docs/EMBEDDING.md, "The calls"). Each
//! needs an idle pass of this baton whose one actor is a caller, a client that the source doesn't
//! declare. It waits for the world, adds one entry, and gives the world back.

ghost use Rattle.std.specs.Prelude.{◌≡◌, Some, None, IfOk, OnErr};
ghost use Rattle.loft_tree.specs.Fits.{Each};
ghost use Rattle.loft_tree.specs.HeadsFit.{HeadsFit};
ghost use Rattle.loft_tree.specs.NamedFits.{IsScheduler};
ghost use Rattle.loft_orders.specs.declared.order.Order.TheVariants as order;
ghost use Rattle.loft_sense.specs.Fits.{IsThread, IsValue};
ghost use Rattle.loft_ft.specs.Calls.{ForCode, HasCaller, IsDeclared, IsEvent, IsFaithfulCaller, MayCall, address_in, caller_of, entry_by, home_in, next_thread, order_of};
ghost use Rattle.loft_ft.specs.Receipts.{Accepted, Refused};

use crate::call::{Call, add};
use crate::receipt::Receipt;
use loft_base::{EventId, ModuleId, NoMemory, SchedId, ThreadId, Value};
use loft_baton::{Baton, Pass};
use loft_orders::Actor;
use loft_tree::Control;
use std::alloc::Global;
use std::sync::Wait;

/// The number of the caller whose pass it is.
fn caller(p: &Pass) -> u32
    requires caller { ForCode (λ x. HasCaller p.now.knows.own x.heads) p.now.knows.code }
    ensures { result ≡ caller_of p.now.knows }
{
    match p.one() {
        Some(Actor::Client(caller)) => caller,
        _ => unreachable!(),
    }
}

/// A caller gives one order: it waits for the world, adds the order, and gives the world back. The
/// answer has the thread that its next create made or makes, too.
fn give<R: Wait>(
    rt: &R,
    alloc: Global,
    b: &Baton,
    p: &mut Pass,
    call: Call<'_>,
) -> Result<(Receipt, ThreadId), NoMemory>
    requires pass { MayCall b.now p.old }
    requires declared { ForCode (λ x. IsDeclared call x.heads) p.old.knows.code }
    ensures pass { MayCall b.now p.new }
    ensures code { p.new.knows.code ≡ p.old.knows.code }
    ensures caller { caller_of p.new.knows ≡ caller_of p.old.knows }
    ensures faithful { IsFaithfulCaller p.old.knows → IsFaithfulCaller p.new.knows }
    ensures ok { IfOk result (λ r. Accepted (entry_by p.old.knows
        (address_in p.old.knows.code call.entry)
        (order_of (next_thread p.old.knows) call.entry))
        r.0.stamp p.old p.new) }
    ensures next { IfOk result (λ r. r.1 ≡ next_thread p.old.knows) }
    ensures err { OnErr result (Refused p.old p.new) }
{
    let caller = caller(p);
    let mut held = b.hold(rt, p);
    let added = add(alloc, held.world(), caller, call);
    b.release(rt, held, p);
    added
}

/// Asks a scheduler for a new thread of a module, which begins there with these arguments. The answer
/// has the id of the thread, the caller's next. It may wait for the world.
///
/// # Errors
///
/// Out of memory: nothing is added.
pub fn ft_thread_create<R: Wait>(
    rt: &R,
    alloc: Global,
    b: &Baton,
    p: &mut Pass,
    s: SchedId,
    m: ModuleId,
    args: &[Value],
) -> Result<(Receipt, ThreadId), NoMemory>
    requires pass { MayCall b.now p.old }
    requires fits { ForCode (λ x. HeadsFit x.heads s m args.now × Each (IsValue x.heads) args.now)
        p.old.knows.code }
    ensures pass { MayCall b.now p.new }
    ensures code { p.new.knows.code ≡ p.old.knows.code }
    ensures caller { caller_of p.new.knows ≡ caller_of p.old.knows }
    ensures faithful { IsFaithfulCaller p.old.knows → IsFaithfulCaller p.new.knows }
    ensures ok { IfOk result (λ r. Accepted (entry_by p.old.knows s
        (order.Create (next_thread p.old.knows) m args.now)) r.0.stamp p.old p.new) }
    ensures thread { IfOk result (λ r. r.1 ≡ next_thread p.old.knows) }
    ensures err { OnErr result (Refused p.old p.new) }
{
    give(rt, alloc, b, p, Call::Create { s, m, args })
}

/// Asks a scheduler to stop a thread. It may wait for the world.
///
/// # Errors
///
/// Out of memory: nothing is added.
pub fn ft_scheduler_stop<R: Wait>(
    rt: &R,
    alloc: Global,
    b: &Baton,
    p: &mut Pass,
    s: SchedId,
    t: ThreadId,
) -> Result<Receipt, NoMemory>
    requires pass { MayCall b.now p.old }
    requires declared { ForCode (λ x. IsScheduler x.heads s × IsThread x.heads t)
        p.old.knows.code }
    ensures pass { MayCall b.now p.new }
    ensures code { p.new.knows.code ≡ p.old.knows.code }
    ensures caller { caller_of p.new.knows ≡ caller_of p.old.knows }
    ensures faithful { IsFaithfulCaller p.old.knows → IsFaithfulCaller p.new.knows }
    ensures ok { IfOk result (λ r. Accepted (entry_by p.old.knows s (order.Stop t))
        r.stamp p.old p.new) }
    ensures err { OnErr result (Refused p.old p.new) }
{
    let control = Control::Stop;
    Ok(give(rt, alloc, b, p, Call::Control { control, s, t })?.0)
}

/// Asks a scheduler to suspend a thread: it doesn't go on until it is resumed. It may wait for the
/// world.
///
/// # Errors
///
/// Out of memory: nothing is added.
pub fn ft_scheduler_suspend<R: Wait>(
    rt: &R,
    alloc: Global,
    b: &Baton,
    p: &mut Pass,
    s: SchedId,
    t: ThreadId,
) -> Result<Receipt, NoMemory>
    requires pass { MayCall b.now p.old }
    requires declared { ForCode (λ x. IsScheduler x.heads s × IsThread x.heads t)
        p.old.knows.code }
    ensures pass { MayCall b.now p.new }
    ensures code { p.new.knows.code ≡ p.old.knows.code }
    ensures caller { caller_of p.new.knows ≡ caller_of p.old.knows }
    ensures faithful { IsFaithfulCaller p.old.knows → IsFaithfulCaller p.new.knows }
    ensures ok { IfOk result (λ r. Accepted (entry_by p.old.knows s (order.Suspend t))
        r.stamp p.old p.new) }
    ensures err { OnErr result (Refused p.old p.new) }
{
    let control = Control::Suspend;
    Ok(give(rt, alloc, b, p, Call::Control { control, s, t })?.0)
}

/// Asks a scheduler to resume a thread that was suspended. It may wait for the world.
///
/// # Errors
///
/// Out of memory: nothing is added.
pub fn ft_scheduler_resume<R: Wait>(
    rt: &R,
    alloc: Global,
    b: &Baton,
    p: &mut Pass,
    s: SchedId,
    t: ThreadId,
) -> Result<Receipt, NoMemory>
    requires pass { MayCall b.now p.old }
    requires declared { ForCode (λ x. IsScheduler x.heads s × IsThread x.heads t)
        p.old.knows.code }
    ensures pass { MayCall b.now p.new }
    ensures code { p.new.knows.code ≡ p.old.knows.code }
    ensures caller { caller_of p.new.knows ≡ caller_of p.old.knows }
    ensures faithful { IsFaithfulCaller p.old.knows → IsFaithfulCaller p.new.knows }
    ensures ok { IfOk result (λ r. Accepted (entry_by p.old.knows s (order.Resume t))
        r.stamp p.old p.new) }
    ensures err { OnErr result (Refused p.old p.new) }
{
    let control = Control::Resume;
    Ok(give(rt, alloc, b, p, Call::Control { control, s, t })?.0)
}

/// Makes an event present in the next instant of the scheduler on whose board it stands. It may wait
/// for the world.
///
/// # Errors
///
/// Out of memory: nothing is added.
pub fn ft_scheduler_broadcast<R: Wait>(
    rt: &R,
    alloc: Global,
    b: &Baton,
    p: &mut Pass,
    e: EventId,
) -> Result<Receipt, NoMemory>
    requires pass { MayCall b.now p.old }
    requires declared { ForCode (λ x. IsEvent x.heads e) p.old.knows.code }
    ensures pass { MayCall b.now p.new }
    ensures code { p.new.knows.code ≡ p.old.knows.code }
    ensures caller { caller_of p.new.knows ≡ caller_of p.old.knows }
    ensures faithful { IsFaithfulCaller p.old.knows → IsFaithfulCaller p.new.knows }
    ensures ok { IfOk result (λ r. Accepted (entry_by p.old.knows (home_in p.old.knows.code e)
        (order.Broadcast e None)) r.stamp p.old p.new) }
    ensures err { OnErr result (Refused p.old p.new) }
{
    let value = None;
    Ok(give(rt, alloc, b, p, Call::Broadcast { e, value })?.0)
}

/// The same with a value, which is added to the event's values of that instant. It may wait for the
/// world.
///
/// # Errors
///
/// Out of memory: nothing is added.
pub fn ft_scheduler_broadcast_value<R: Wait>(
    rt: &R,
    alloc: Global,
    b: &Baton,
    p: &mut Pass,
    e: EventId,
    v: i64,
) -> Result<Receipt, NoMemory>
    requires pass { MayCall b.now p.old }
    requires declared { ForCode (λ x. IsEvent x.heads e) p.old.knows.code }
    ensures pass { MayCall b.now p.new }
    ensures code { p.new.knows.code ≡ p.old.knows.code }
    ensures caller { caller_of p.new.knows ≡ caller_of p.old.knows }
    ensures faithful { IsFaithfulCaller p.old.knows → IsFaithfulCaller p.new.knows }
    ensures ok { IfOk result (λ r. Accepted (entry_by p.old.knows (home_in p.old.knows.code e)
        (order.Broadcast e (Some v))) r.stamp p.old p.new) }
    ensures err { OnErr result (Refused p.old p.new) }
{
    let value = Some(v);
    Ok(give(rt, alloc, b, p, Call::Broadcast { e, value })?.0)
}
