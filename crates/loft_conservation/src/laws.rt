//! Laws of what is sent. Each is what the contract of an empty function says.

ghost use Rattle.std.specs.Prelude.{ℕ, List, All};
ghost use Rattle.loft_tree.specs.declared.heads.Place.{Place};
ghost use Rattle.loft_tree.specs.declared.heads.Place.TheVariants.{Unlinked};
ghost use Rattle.loft_tree.specs.Fits.{Each};
ghost use Rattle.loft_base.specs.declared.options.Limits.{Limits};
ghost use Rattle.loft_orders.specs.declared.order.Order.{Order};
ghost use Rattle.loft_orders.specs.declared.thread.Thread.{Thread};
ghost use Rattle.loft_sense.specs.Machine.{Prog, heads, Mach};
ghost use Rattle.loft_sense.specs.Around.{Around};
ghost use Rattle.loft_sense.specs.Passes.{run_of, around_after};
ghost use Rattle.loft_sense.specs.Instant.{sent_by, instant};
ghost use Rattle.loft_sense.specs.Async.{async};
ghost use Rattle.loft_sense.specs.Stands.{Stands};
ghost use Rattle.loft_sense.specs.Fits.{ThreadNames, Fits};
ghost use Rattle.loft_soundness.specs.WellFormed.{IsWellFormed};
ghost use Rattle.loft_soundness.specs.Points.{AroundFits};
ghost use Rattle.loft_soundness.specs.Machines.{ThreadFits, MachFits};
ghost use Rattle.loft_conservation.specs.Adds.{RunAdds, LeavesBy, MakesAt};
ghost use Rattle.loft_conservation.specs.Instants.{SentWell, KeepsThreads};
ghost use Rattle.loft_conservation.specs.Blocks.{EndsAtLast, IsBlock};

/// A run of a thread only adds acts, and the thread keeps its id (`adds`). What it sends carries and
/// ends no thread, but for its own end, which is its last act. Each create makes the thread that the
/// place makes next. In a well-formed program a thread that leaves goes to a declared scheduler, or
/// from a scheduler to the workers (`ways`), what a run makes goes to one declared scheduler
/// (`creates`), and a thread that isn't linked makes nobody (`unlinked`).
pub fn runs_add_acts()
    ensures adds { (x : Prog) (t : Thread) (around : Around) (left : ℕ)
        → RunAdds t.id around (run_of x t around left) }
    ensures ways { (x : Prog) → IsWellFormed x
        → (t : Thread) (place : Place) (around : Around) (left : ℕ)
        → Stands x t place → ThreadNames (heads x) t → AroundFits (heads x) place around
        → LeavesBy (heads x) place (run_of x t around left) }
    ensures creates { (x : Prog) → IsWellFormed x
        → (t : Thread) (place : Place) (around : Around) (left : ℕ)
        → Stands x t place → ThreadNames (heads x) t → AroundFits (heads x) place around
        → Each (SentWell (heads x)) (sent_by place (around_after (run_of x t around left)).acts) }
    ensures unlinked { (x : Prog) → IsWellFormed x
        → (t : Thread) (place : Place) (around : Around) (left : ℕ)
        → Stands x t place → ThreadNames (heads x) t → AroundFits (heads x) place around
        → MakesAt place around.made (around_after (run_of x t around left)).made }
{}

/// An instant on a machine whose threads stand, with a batch whose orders fit, keeps threads: as
/// often as a thread was linked and is brought by the batch, it is linked after it, is sent on, and
/// is told of as ended. The creates that it sends make the threads of its scheduler by their
/// numbers, each once, and go to a declared scheduler, and so do the threads that it sends on, or to
/// the workers.
pub fn instants_keep_threads()
    ensures { (x : Prog) → IsWellFormed x
        → (limits : Limits) (m : Mach) (batch : List Order)
        → MachFits x m → All (Fits x m.s) batch
        → KeepsThreads (heads x) m batch (instant x limits m batch) }
{}

/// What a thread that stands unlinked sends in a well-formed program, with any bound, ends with an
/// order by which it is linked again or has ended, and none before the last is one: no stop holds it
/// there. So a worker has its job in hand for as long as something of it is left to post. The rules
/// stand in `docs/SEMANTICS.md`, "Unlinked blocks".
pub fn blocks_end_at_their_last()
    ensures { (x : Prog) → IsWellFormed x
        → (t : Thread) (block : ℕ) → ThreadFits x Unlinked t → EndsAtLast (async x t block) }
{}

/// The last order of an unlinked block sends the thread itself to one declared scheduler, or tells
/// every scheduler of its end. Every other one makes, carries and ends nobody.
pub fn blocks_keep_their_thread()
    ensures { (x : Prog) → IsWellFormed x
        → (t : Thread) (block : ℕ) → ThreadFits x Unlinked t
        → IsBlock (heads x) t.id (async x t block) }
{}
