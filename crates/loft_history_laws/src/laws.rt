//! Laws of orders and threads in histories. Each is what the contract of an empty function says.

ghost use Rattle.std.specs.Prelude.{◌≡◌, List, [], ◌∷◌, ◌++◌};
ghost use Rattle.loft_base.specs.declared.ids.SchedId.{SchedId};
ghost use Rattle.loft_tree.specs.declared.heads.Heads.{Heads};
ghost use Rattle.loft_orders.specs.declared.entry.Entry.{Entry};
ghost use Rattle.loft_orders.specs.declared.entry.Entry.TheVariants.{Take};
ghost use Rattle.loft_base.specs.declared.options.RunOptions.{RunOptions};
ghost use Rattle.loft_orders.specs.declared.order.Order.{Order};
ghost use Rattle.loft_history.specs.History.{sent_in, log, orders_to, starts_of, waiting};
ghost use Rattle.loft_sense.specs.Machine.{Prog};
ghost use Rattle.loft_history.specs.Legal.{IsRouted, IsLegal};
ghost use Rattle.loft_soundness.specs.WellFormed.{IsWellFormed};
ghost use Rattle.loft_history_laws.specs.Batches.{InBatches, InFirst, InPicks, InFirstPick};
ghost use Rattle.loft_history_laws.specs.Places.{OnePlace, InOne, Nowhere, LinkedOnce, HandsAgree};

/// Each order stands once at each scheduler to which it is addressed: in a batch or left over. The
/// batches that a scheduler took, one after the other, and then what waits for it, are the creates of
/// its starts and then all that was sent to it, in the order of the history (`batches`). What an
/// entry sends stands in the first batch that the scheduler takes after it, following what waited
/// before, or it is left over where the scheduler takes none (`first`). This needs no more than that
/// each batch is what waited. The rules stand in `docs/SEMANTICS.md`, "One batch".
pub fn orders_stand_in_one_batch()
    ensures batches { (h : Heads) (es : List Entry) → IsRouted h es → InBatches h es }
    ensures first { (h : Heads) (es : List Entry) → IsRouted h es → InFirst h es }
{}

/// What waits for a scheduler is all that was addressed to it since its last Take, in order
/// (`taken`); where it has taken nothing, its starts come first (`starts`). That is so after any
/// entries.
pub fn what_waits_was_sent_since()
    ensures taken { (h : Heads) (s : SchedId) (es : List Entry) (batch : List Order)
        → (later : List Entry) → log s later ≡ []
        → waiting h s (es ++ Take s batch ∷ later) ≡ orders_to s (sent_in later) }
    ensures starts { (h : Heads) (s : SchedId) (es : List Entry) → log s es ≡ []
        → waiting h s es ≡ starts_of h s ++ orders_to s (sent_in es) }
{}

/// Each thread that was sent to the workers is picked once, or waits: the threads that were picked,
/// one after the other, and then those that wait, are all that were sent to the workers, in order
/// (`picks`). The Pick that takes a thread is the one before which just those ahead of it were picked,
/// and where there is none, it waits (`first`). This needs no more than that each job is the first of
/// those that waited.
pub fn jobs_are_picked_in_order()
    ensures picks { (h : Heads) (es : List Entry) → IsRouted h es → InPicks es }
    ensures first { (h : Heads) (es : List Entry) → IsRouted h es → InFirstPick es }
{}

/// In each legal history of a well-formed program, with workers, clients and callers, each thread
/// that was started, or whose create stands in an entry, is in exactly one place, once: linked to one
/// scheduler as after its last give, arriving at one (its create or `arrive` waits there, or is in the
/// batch of its open take), a job that waits for a worker, a job in a worker's hand, or ended, and
/// then its end was told once (`one`). A thread that nothing made is nowhere (`nowhere`). As counts:
/// no thread is made twice, and it is as often somewhere as it was made (`counts`). So it is linked
/// to at most one scheduler (`linked`). The batches of takes and gives, and the jobs in hand, are
/// those of the history (`hands`). The rules stand in `docs/SEMANTICS.md`, "One place".
pub fn threads_are_in_one_place()
    ensures counts { (x : Prog) → IsWellFormed x
        → (o : RunOptions) (es : List Entry) → IsLegal x o es → OnePlace x o es }
    ensures one { (x : Prog) → IsWellFormed x
        → (o : RunOptions) (es : List Entry) → IsLegal x o es → InOne x o es }
    ensures nowhere { (x : Prog) → IsWellFormed x
        → (o : RunOptions) (es : List Entry) → IsLegal x o es → Nowhere x o es }
    ensures linked { (x : Prog) → IsWellFormed x
        → (o : RunOptions) (es : List Entry) → IsLegal x o es → LinkedOnce x o es }
    ensures hands { (x : Prog) → IsWellFormed x
        → (o : RunOptions) (es : List Entry) → IsLegal x o es → HandsAgree es }
{}
