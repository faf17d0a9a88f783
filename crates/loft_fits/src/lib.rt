//! Whether a scheduler of a program may be given an order.
#![tactic(auto)]

ghost use Rattle.std.specs.Prelude.{◌≡◌, ◌↔◌, IsTrue};
ghost use Rattle.loft_tree.specs.declared.heads.Place.TheVariants as place;
ghost use Rattle.loft_orders.specs.declared.thread.Wait.TheVariants as wait_for;
ghost use Rattle.loft_sense.specs.Stands.{Stands};
ghost use Rattle.loft_sense.specs.Fits.{ThreadNames, Fits};
ghost use Rattle.loft_standing.specs.Stops.{tree_of};

use loft_base::SchedId;
use loft_order_names::{creation_fits, end_names, is_event_of, is_thread, thread_names};
use loft_orders::{Order, Thread};
use loft_place::Placed;
use loft_standing::{is_new, stands};
use loft_tree::Place;

/// Whether a thread may arrive in the scheduler: it hasn't run yet where it is linked, it stands in the program and is in
/// the scheduler, and all threads that it names are declared.
fn arrival_fits(program: &Placed, scheduler: SchedId, thread: &Thread) -> bool
    ensures { IsTrue result ↔ ((thread.now.wait ≡ wait_for.New) × Stands (tree_of program.now) thread.now (place.Sched scheduler) × ThreadNames program.now.heads thread.now) }
{
    is_new(&thread.wait)
        && stands(program.program(), thread, Place::Sched(scheduler))
        && thread_names(program.heads(), thread)
}

/// Whether the scheduler of the program may be given the order (docs/SEMANTICS.md, "Fits"): all that it names is declared,
/// an event stands on the scheduler's board, a thread that is to be made can begin in the scheduler, and one that arrives
/// stands there. It takes no memory.
pub fn fits(program: &Placed, scheduler: SchedId, order: &Order) -> bool
    ensures { IsTrue result ↔ Fits (tree_of program.now) scheduler order.now }
{
    let heads = program.heads();
    match order {
        Order::Create {
            thread,
            module,
            args,
        } => creation_fits(heads, scheduler, *thread, *module, args.as_slice()),
        Order::Arrive(thread) => arrival_fits(program, scheduler, thread.as_thread()),
        Order::Stop(thread) | Order::Suspend(thread) | Order::Resume(thread) => is_thread(
            heads, *thread,
        ),
        Order::Broadcast { event, .. } => is_event_of(heads, scheduler, *event),
        Order::Ended { thread, end } => is_thread(heads, *thread) && end_names(heads, *end),
    }
}
