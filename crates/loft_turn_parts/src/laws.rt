//! Laws of the parts of turns and jobs. Each is what the contract of an empty function says.

ghost use Rattle.std.specs.Prelude.{◌≡◌, ◌++◌, ◌∷◌, [], ◌↔◌, ℕ, true, false, length, not, List};
ghost use Rattle.loft_base.specs.declared.ids.SchedId.{SchedId};
ghost use Rattle.loft_orders.specs.declared.entry.Actor.TheVariants.{Client, Sched};
ghost use Rattle.loft_orders.specs.declared.entry.Entry.{Entry};
ghost use Rattle.loft_orders.specs.declared.entry.Entry.TheVariants.{Take, Give, Pick, Post};
ghost use Rattle.loft_base.specs.declared.options.Limits.{Limits};
ghost use Rattle.loft_base.specs.declared.options.RunOptions.{RunOptions};
ghost use Rattle.loft_orders.specs.declared.note.InstantNote.{InstantNote};
ghost use Rattle.loft_orders.specs.declared.order.Order.{Order};
ghost use Rattle.loft_orders.specs.declared.order.Sent.{Sent};
ghost use Rattle.loft_orders.specs.declared.thread.Thread.{Thread};
ghost use Rattle.loft_sense.specs.Async.{async};
ghost use Rattle.loft_history.specs.Clients.{outside_of};
ghost use Rattle.loft_sense.specs.Machine.{Prog, Mach};
ghost use Rattle.loft_history.specs.History.{creates, ends_block, is_busy, is_open, unposted, unsent};
ghost use Rattle.loft_history.specs.Legal.{of, Gives};
ghost use Rattle.loft_turn_parts.specs.Clients.{orders_at};
ghost use Rattle.loft_turn_parts.specs.Turns.{IsReplay};
ghost use Rattle.loft_tree.specs.declared.heads.Heads.{Heads};

/// A Take begins a turn of its scheduler, and a Give ends it and leaves the scheduler as it was
/// (docs/SEMANTICS.md, "Turns"). How it stands is told by its own entries as well as by the whole
/// history.
pub fn turns_follow_their_entries()
    ensures own { (x : Prog) (l : Limits) (s : SchedId) (es : List Entry) (m : Mach)
        (notes : List InstantNote)
        → IsReplay x l s (of (Sched s) es) m notes ↔ IsReplay x l s es m notes }
    ensures begins { (s : SchedId) (es : List Entry) (batch : List Order)
        → is_open s (es ++ Take s batch ∷ []) ≡ true }
    ensures ends { (s : SchedId) (es : List Entry) (sent : List Sent)
        → is_open s (es ++ Give s sent ∷ []) ≡ false }
    ensures give { (x : Prog) (l : Limits) (s : SchedId) (es : List Entry) (sent : List Sent)
        (m : Mach) (notes : List InstantNote) → IsReplay x l s es m notes
        → IsReplay x l s (es ++ Give s sent ∷ []) m notes }
{}

/// A Pick leaves all that its block sends to be posted, and a Post all but the first of that; the
/// last of a block ends its job (docs/SEMANTICS.md, "Unlinked blocks").
pub fn jobs_follow_their_entries()
    ensures pick { (x : Prog) (o : RunOptions) (w : ℕ) (es : List Entry) (job : Thread)
        → let next = es ++ Pick w job ∷ [] in
        (unposted x o w next ≡ async x job o.limits.block) × (is_busy w next ≡ true) }
    ensures post { (x : Prog) (o : RunOptions) (w : ℕ) (es : List Entry) (m : Sent)
        (rest : List Sent) → unposted x o w es ≡ m ∷ rest → let next = es ++ Post w m ∷ [] in
        (unposted x o w next ≡ rest) × (is_busy w next ≡ not (ends_block m.order)) }
{}

/// What a client of the source has still to give is what comes after as many of its orders as it has
/// entries, its creates numbered on, where these entries give what they should
/// (docs/SEMANTICS.md, "History").
pub fn orders_follow_their_entries()
    ensures { (h : Heads) (c : ℕ) (es : List Entry)
        → let own = of (Client c) es in Gives (outside_of h c) own
        → unsent h c es ≡ orders_at h c (length own) (creates c es) }
{}
