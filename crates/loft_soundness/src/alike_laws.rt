//! Laws of programs whose threads run alike. Each is what the contract of an empty function says.

ghost use Rattle.std.specs.Prelude.{◌≡◌, ◌↔◌, ℕ, List, All};
ghost use Rattle.loft_base.specs.declared.ids.SchedId.{SchedId};
ghost use Rattle.loft_tree.specs.declared.heads.Place.TheVariants.{Unlinked};
ghost use Rattle.loft_tree.specs.NamedFits.{IsScheduler};
ghost use Rattle.loft_orders.specs.declared.entry.Entry.{Entry};
ghost use Rattle.loft_base.specs.declared.options.Limits.{Limits};
ghost use Rattle.loft_base.specs.declared.options.RunOptions.{RunOptions};
ghost use Rattle.loft_orders.specs.declared.order.Order.{Order};
ghost use Rattle.loft_orders.specs.declared.thread.Thread.{Thread};
ghost use Rattle.loft_sense.specs.Machine.{Prog, heads, Mach};
ghost use Rattle.loft_sense.specs.Fits.{Fits};
ghost use Rattle.loft_sense.specs.Instant.{instant};
ghost use Rattle.loft_sense.specs.Async.{async};
ghost use Rattle.loft_history.specs.History.{Choice, hist, replayed, HasEnded};
ghost use Rattle.loft_history.specs.Legal.{IsLegal};
ghost use Rattle.loft_history.specs.Report.{report};
ghost use Rattle.loft_soundness.specs.WellFormed.{IsWellFormed};
ghost use Rattle.loft_soundness.specs.Machines.{ThreadFits, MachFits};
ghost use Rattle.loft_soundness.specs.Alike.{RunsAlike};

/// A well-formed program and one whose threads run alike can't be told apart by what they do. An
/// instant on a machine whose threads stand, with a batch whose orders fit, leaves the same machine
/// and notes the same in both, and a thread that stands unlinked sends the same. So the same
/// choices make the same history, or the same choice is the first that isn't allowed, and the same
/// histories are legal. In each of them every scheduler has the same machine and notes, it has
/// ended in one exactly where it has in the other, and its report is the same text.
pub fn programs_that_run_alike_agree()
    ensures instants { (x y : Prog) → IsWellFormed x → RunsAlike x y
        → (limits : Limits) (m : Mach) (batch : List Order)
        → MachFits x m → All (Fits x m.s) batch
        → instant x limits m batch ≡ instant y limits m batch }
    ensures blocks { (x y : Prog) → RunsAlike x y
        → (t : Thread) (block : ℕ) → ThreadFits x Unlinked t
        → async x t block ≡ async y t block }
    ensures histories { (x y : Prog) → IsWellFormed x → RunsAlike x y
        → (o : RunOptions) (choices : List Choice) → hist x o choices ≡ hist y o choices }
    ensures legal { (x y : Prog) → IsWellFormed x → RunsAlike x y
        → (o : RunOptions) (es : List Entry) → IsLegal x o es ↔ IsLegal y o es }
    ensures replays { (x y : Prog) → IsWellFormed x → RunsAlike x y
        → (o : RunOptions) (es : List Entry) → IsLegal x o es
        → (s : SchedId) → IsScheduler (heads x) s
        → replayed x o.limits s es ≡ replayed y o.limits s es }
    ensures ended { (x y : Prog) → IsWellFormed x → RunsAlike x y
        → (o : RunOptions) (es : List Entry) → IsLegal x o es
        → HasEnded x o es ↔ HasEnded y o es }
    ensures reports { (x y : Prog) → IsWellFormed x → RunsAlike x y
        → (o : RunOptions) (es : List Entry) → IsLegal x o es
        → report x o es ≡ report y o es }
{}
