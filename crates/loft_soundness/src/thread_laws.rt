//! A law of the threads of histories, wherever they are. It is what the contract of an empty
//! function says.

ghost use Rattle.std.specs.Prelude.{◌≡◌, ℕ, List, ◌∷◌, ◌++◌, All};
ghost use Rattle.loft_base.specs.declared.ids.ModuleId.{ModuleId};
ghost use Rattle.loft_base.specs.declared.ids.SchedId.{SchedId};
ghost use Rattle.loft_base.specs.declared.ids.ThreadId.{ThreadId};
ghost use Rattle.loft_base.specs.declared.ids.Value.{Value};
ghost use Rattle.loft_tree.specs.declared.heads.Place.{Place};
ghost use Rattle.loft_tree.specs.declared.heads.Place.TheVariants.{Sched, Unlinked};
ghost use Rattle.loft_tree.specs.NamedFits.{IsScheduler};
ghost use Rattle.loft_orders.specs.declared.entry.Entry.{Entry};
ghost use Rattle.loft_orders.specs.declared.entry.Entry.TheVariants.{Pick};
ghost use Rattle.loft_base.specs.declared.options.RunOptions.{RunOptions};
ghost use Rattle.loft_orders.specs.declared.thread.Thread.{Thread};
ghost use Rattle.loft_sense.specs.Machine.{Prog, heads};
ghost use Rattle.loft_history.specs.History.{log, waiting, jobs, unposted, replayed};
ghost use Rattle.loft_soundness.specs.Threads.{SentCarries, WaitsSo, IsKeptIn};

use std::marker::Brand;

/// A claim about threads, for proofs alone: what the law says of any claim, it says of each type
/// that has this trait.
pub trait ThreadClaim {
    /// What is claimed of a thread that is linked at a place, or on its way there.
    ghost holds: { Place → Thread → Type 0 };

    /// What is granted with each create: of the thread that it makes, its module and its arguments.
    ghost grants: { ThreadId → ModuleId → List Value → Type 0 };
}

impl ThreadClaim for Brand {
    ghost holds = { λ place t. Unit {0} };

    ghost grants = { λ t m args. Unit {0} };
}

/// What new threads meet, what the close keeps, and what each run of a thread that stands keeps,
/// where it is held and where it goes, holds of the threads of each legal history, with callers or
/// without, wherever they are: linked, on the way in an order that waits, in a batch (that of an
/// instant that runs among them), waiting for a worker, in a worker's hand, in what it has still to
/// post, and in what an instant sent. What a new thread meets may rest on what is granted with its
/// create: by whoever sends it, the source, a caller, a thread of which the claim holds, or since it
/// is known of each create of the history (`IsKeptIn`).
pub fn threads_keep_what_runs_keep<C: ThreadClaim>()
    ensures linked { (x : Prog) (o : RunOptions) (es : List Entry)
        → IsKeptIn x C.holds C.grants o es → (s : SchedId) → IsScheduler (heads x) s
        → All (λ q. C.holds (Sched s) q.thread) (replayed x o.limits s es).machine.linked }
    ensures waiting { (x : Prog) (o : RunOptions) (es : List Entry)
        → IsKeptIn x C.holds C.grants o es
        → (s : SchedId) → IsScheduler (heads x) s
        → All (WaitsSo C.holds C.grants s) (waiting (heads x) s es) }
    ensures batches { (x : Prog) (o : RunOptions) (es : List Entry)
        → IsKeptIn x C.holds C.grants o es
        → (s : SchedId) → IsScheduler (heads x) s
        → All (λ batch. All (WaitsSo C.holds C.grants s) batch) (log s es) }
    ensures jobs { (x : Prog) (o : RunOptions) (es : List Entry)
        → IsKeptIn x C.holds C.grants o es → All (C.holds Unlinked) (jobs es) }
    ensures hands { (x : Prog) (o : RunOptions) (es : List Entry)
        → IsKeptIn x C.holds C.grants o es
        → (before : List Entry) (w : ℕ) (job : Thread) (after : List Entry)
        → es ≡ before ++ Pick w job ∷ after → C.holds Unlinked job }
    ensures posts { (x : Prog) (o : RunOptions) (es : List Entry)
        → IsKeptIn x C.holds C.grants o es
        → (w : ℕ) → All (SentCarries C.holds) (unposted x o w es) }
    ensures sent { (x : Prog) (o : RunOptions) (es : List Entry)
        → IsKeptIn x C.holds C.grants o es → (s : SchedId) → IsScheduler (heads x) s
        → All (λ note. All (SentCarries C.holds) note.sent) (replayed x o.limits s es).notes }
{}
