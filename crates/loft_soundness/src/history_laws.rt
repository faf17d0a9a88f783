//! Laws of histories of well-formed programs. Each is what the contract of an empty function says.

ghost use Rattle.std.specs.Prelude.{◌≡◌, ℕ, List, length, All};
ghost use Rattle.loft_base.specs.declared.ids.SchedId.{SchedId};
ghost use Rattle.loft_tree.specs.declared.heads.Place.TheVariants.{Sched, Unlinked};
ghost use Rattle.loft_tree.specs.Fits.{Each};
ghost use Rattle.loft_tree.specs.NamedFits.{IsScheduler};
ghost use Rattle.loft_orders.specs.declared.entry.Entry.{Entry};
ghost use Rattle.loft_base.specs.declared.options.Limits.{Limits};
ghost use Rattle.loft_base.specs.declared.options.RunOptions.{RunOptions};
ghost use Rattle.loft_orders.specs.declared.order.Order.{Order};
ghost use Rattle.loft_sense.specs.Machine.{Prog, heads};
ghost use Rattle.loft_sense.specs.Fits.{Fits};
ghost use Rattle.loft_history.specs.Clients.{outside_of};
ghost use Rattle.loft_sense.specs.Instant.{replay};
ghost use Rattle.loft_history.specs.History.{sent_in, waiting, jobs, unposted, unsent, replayed};
ghost use Rattle.loft_history.specs.Legal.{FitsOne, IsLegal};
ghost use Rattle.loft_soundness.specs.WellFormed.{IsWellFormed};
ghost use Rattle.loft_soundness.specs.Points.{HasValues};
ghost use Rattle.loft_soundness.specs.Machines.{ThreadFits, MachFits, SentFits};

/// In a well-formed program, after any entries at all whose orders fit as they are addressed, what
/// waits for each scheduler fits there, and each thread that waits for a worker stands unlinked. So
/// one who knows no more of a history than that may take and pick. The rules stand in
/// `docs/SEMANTICS.md`, "History" and "Fits".
pub fn what_is_sent_waits_fit()
    ensures waiting { (x : Prog) → IsWellFormed x
        → (es : List Entry) → All (SentFits x) (sent_in es)
        → (s : SchedId) → IsScheduler (heads x) s → All (Fits x s) (waiting (heads x) s es) }
    ensures jobs { (x : Prog) (es : List Entry) → All (SentFits x) (sent_in es)
        → All (ThreadFits x Unlinked) (jobs es) }
{}

/// Instants on batches that fit, from none on, leave the threads of their scheduler standing where it
/// links them, and all that they send fits as it is addressed. Whatever the batches are, they leave a
/// value for each shared variable of the scheduler.
pub fn replays_keep_standing()
    ensures machine { (x : Prog) → IsWellFormed x
        → (limits : Limits) (s : SchedId) → IsScheduler (heads x) s
        → (batches : List (List Order)) → All (All (Fits x s)) batches
        → let m = (replay x limits s batches).machine in (m.s ≡ s) × MachFits x m }
    ensures sent { (x : Prog) → IsWellFormed x
        → (limits : Limits) (s : SchedId) → IsScheduler (heads x) s
        → (batches : List (List Order)) → All (All (Fits x s)) batches
        → All (λ note. All (SentFits x) note.sent) (replay x limits s batches).notes }
    ensures values { (x : Prog) (limits : Limits) (s : SchedId) (batches : List (List Order))
        → HasValues (heads x) (Sched s) (length (replay x limits s batches).machine.shared) }
{}

/// In each legal history of a well-formed program, of any number of schedulers, with workers, clients
/// and callers, what waits for a scheduler fits there, and the threads of each scheduler stand where
/// it links them. Each order that it has sent fits at each scheduler to which it is addressed, and
/// each thread that it has sent to the workers stands unlinked. So it is with what a worker has still
/// to post, and with what a client of the source has still to give; each order of a client goes to one
/// declared scheduler. So whoever makes entries may hand on what they send without asking. The rules
/// of histories stand in `docs/SEMANTICS.md`, "History" and "Legal", those of orders under "Fits".
pub fn waiting_orders_fit()
    ensures waiting { (x : Prog) → IsWellFormed x
        → (o : RunOptions) (es : List Entry) → IsLegal x o es
        → (s : SchedId) → IsScheduler (heads x) s → All (Fits x s) (waiting (heads x) s es) }
    ensures machines { (x : Prog) → IsWellFormed x
        → (o : RunOptions) (es : List Entry) → IsLegal x o es
        → (s : SchedId) → IsScheduler (heads x) s
        → let m = (replayed x o.limits s es).machine in (m.s ≡ s) × MachFits x m }
    ensures sent { (x : Prog) → IsWellFormed x
        → (o : RunOptions) (es : List Entry) → IsLegal x o es
        → (s : SchedId) → IsScheduler (heads x) s
        → All (λ note. All (SentFits x) note.sent) (replayed x o.limits s es).notes }
    ensures jobs { (x : Prog) → IsWellFormed x
        → (o : RunOptions) (es : List Entry) → IsLegal x o es
        → All (ThreadFits x Unlinked) (jobs es) }
    ensures posts { (x : Prog) → IsWellFormed x
        → (o : RunOptions) (es : List Entry) → IsLegal x o es
        → (w : ℕ) → All (SentFits x) (unposted x o w es) }
    ensures clients { (x : Prog) → IsWellFormed x
        → (o : RunOptions) (es : List Entry) → IsLegal x o es
        → (c : ℕ) → All (SentFits x) (unsent (heads x) c es) }
    ensures for_one { (x : Prog) → IsWellFormed x
        → (c : ℕ) → Each (λ m. FitsOne x m.to m.order) (outside_of (heads x) c) }
{}
