//! Laws of step bounds. Each is what the contract of an empty function says.

ghost use Rattle.std.specs.Prelude.{◌≡◌, ◌<◌, ◌↔◌, ◌++◌, ◌∷◌, ℕ, List, length, All};
ghost use Rattle.loft_base.specs.declared.ids.SchedId.{SchedId};
ghost use Rattle.loft_base.specs.declared.ids.ThreadId.{ThreadId};
ghost use Rattle.loft_base.specs.declared.ids.ModuleId.{ModuleId};
ghost use Rattle.loft_tree.specs.NamedTree.{NamedProgram};
ghost use Rattle.loft_tree.specs.Resolved.{Resolved, resolved_of};
ghost use Rattle.loft_orders.specs.declared.entry.Entry.{Entry};
ghost use Rattle.loft_orders.specs.declared.entry.Entry.TheVariants.{Pick};
ghost use Rattle.loft_base.specs.declared.options.RunOptions.{RunOptions};
ghost use Rattle.loft_orders.specs.declared.order.Order.{Order};
ghost use Rattle.loft_orders.specs.declared.thread.Thread.{Thread};
ghost use Rattle.loft_sense.specs.Machine.{Tree};
ghost use Rattle.loft_sense.specs.Apply.{apply};
ghost use Rattle.loft_sense.specs.Instant.{instant, replay};
ghost use Rattle.loft_sense.specs.Async.{async};
ghost use Rattle.loft_history.specs.History.{log, starts_of, replayed};
ghost use Rattle.loft_history.specs.Legal.{IsLegal};
ghost use Rattle.loft_soundness.specs.Numbered.{IsNumbered};
ghost use Rattle.loft_history.specs.History.{sent_in};
ghost use Rattle.loft_budget.specs.Bounds.{ActOverBy, OrderOverOf};
ghost use Rattle.loft_budget.specs.Bounds.{HasBound, MakesBounded, OrderSpares, ActSpares};
ghost use Rattle.loft_budget.specs.declared.verdict.Verdict.{Verdict};
ghost use Rattle.loft_budget.specs.declared.verdict.Verdict.TheVariants.{Bound};
ghost use Rattle.loft_budget.specs.Verdicts.{IsVerdict};

/// In each legal history, with callers too, a thread that ends with Over has an outermost module
/// without a bound, or with one that is greater than the budget of an instant or of a block.
/// In each instant of each scheduler it is one of the threads that are linked once the batch
/// is applied (`instants`), and in a block it is the thread of the block (`blocks`). So a thread
/// whose module, as it is made, has a bound that both budgets allow never ends with Over: no note
/// has such an end (`notes`), and no entry tells of one (`told`).
pub fn bounded_threads_never_run_over()
    ensures instants { (p : Resolved) → IsNumbered p
        → (o : RunOptions) (es : List Entry) → IsLegal (Tree p) o es
        → (s : SchedId) (before : List (List Order)) (batch : List Order) (after : List (List Order))
        → log s es ≡ before ++ batch ∷ after
        → let m = (replay (Tree p) o.limits s before).machine in
        All (ActOverBy p o.limits (apply (Tree p) m batch).linked)
        (instant (Tree p) o.limits m batch).note.acts }
    ensures blocks { (p : Resolved) → IsNumbered p
        → (o : RunOptions) (es : List Entry) → IsLegal (Tree p) o es
        → (before : List Entry) (w : ℕ) (job : Thread) (after : List Entry)
        → es ≡ before ++ Pick w job ∷ after
        → All (λ sent. OrderOverOf p o.limits job sent.order)
        (async (Tree p) job o.limits.block) }
    ensures told { (p : Resolved) → IsNumbered p
        → (o : RunOptions) (es : List Entry) → IsLegal (Tree p) o es
        → (t : ThreadId) → ((s : SchedId) → All (MakesBounded p o.limits t) (starts_of p.heads s))
        → All (λ sent. MakesBounded p o.limits t sent.order) (sent_in es)
        → All (λ sent. OrderSpares t sent.order) (sent_in es) }
    ensures notes { (p : Resolved) → IsNumbered p
        → (o : RunOptions) (es : List Entry) → IsLegal (Tree p) o es
        → (t : ThreadId) → ((s : SchedId) → All (MakesBounded p o.limits t) (starts_of p.heads s))
        → All (λ sent. MakesBounded p o.limits t sent.order) (sent_in es)
        → (s : SchedId)
        → All (λ note. All (ActSpares t) note.acts) (replayed (Tree p) o.limits s es).notes }
{}

/// Each module has at most one verdict (`one`), and it is that of a bound exactly where the module
/// has this bound (`bound`).
pub fn modules_have_one_verdict()
    ensures one { (n : NamedProgram) (m : ModuleId) (v w : Verdict)
        → IsVerdict n m v → IsVerdict n m w → v ≡ w }
    ensures bound { (n : NamedProgram) (m : ModuleId) (b : ℕ) → m.0 < length n.modules
        → IsVerdict n m (Bound b) ↔ HasBound (resolved_of n) m b }
{}
