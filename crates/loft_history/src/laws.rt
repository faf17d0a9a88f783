//! Laws of histories. Each is what the contract of an empty function says.

ghost use Rattle.std.specs.Prelude.{◌≡◌, ◌<◌, ◌↔◌, ℕ, IsTrue, List, [], ◌∷◌, ◌++◌};
ghost use Rattle.std.specs.Prelude.{map, length, drop, All, None, Ok};
ghost use Rattle.std.specs.List.{flat_map};
ghost use Rattle.loft_base.specs.declared.ids.SchedId.{SchedId};
ghost use Rattle.loft_tree.specs.declared.heads.Heads.{Heads};
ghost use Rattle.loft_orders.specs.declared.entry.Actor.{Actor};
ghost use Rattle.loft_orders.specs.declared.entry.Actor.TheVariants.{Sched, Worker, Client};
ghost use Rattle.loft_orders.specs.declared.entry.Entry.{Entry};
ghost use Rattle.loft_base.specs.declared.options.RunOptions.{RunOptions};
ghost use Rattle.loft_base.specs.declared.options.Limits.{Limits};
ghost use Rattle.loft_orders.specs.declared.order.Order.{Order};
ghost use Rattle.loft_sense.specs.Machine.{Prog, heads};
ghost use Rattle.loft_sense.specs.Tally.{capped};
ghost use Rattle.loft_sense.specs.Instant.{replay};
ghost use Rattle.loft_orders.specs.Lines.{text_of};
ghost use Rattle.loft_history.specs.Report.{begun_lines};
ghost use Rattle.loft_history.specs.History.{log, is_open, unposted, is_busy, creates, unsent};
ghost use Rattle.loft_history.specs.History.{Choice, choice_of, entry_of, hist, HasEnded, jobs_sent};
ghost use Rattle.loft_history.specs.Clients.{outside_of};
ghost use Rattle.loft_history.specs.Legal.{actor_of, same_actor, of, AtEach, IsFaithful, IsNextOf};
ghost use Rattle.loft_history.specs.Legal.{IsLegal, HasNoCallers, ComesNext};
ghost use Rattle.std.specs.Prelude.{true, false};
ghost use Rattle.loft_base.specs.declared.ids.ThreadId.{ThreadId};
ghost use Rattle.loft_orders.specs.declared.order.End.{End};
ghost use Rattle.loft_sense.specs.Heads.{same_scheduler};
ghost use Rattle.loft_sense.specs.Apply.{tell_end};
ghost use Rattle.loft_history.specs.History.{is_addressed};
ghost use Rattle.loft_tree.specs.declared.heads.Place.TheVariants as place;

/// The history that choices make is legal, no caller has an entry in it, and its choices are these:
/// where every choice is allowed, each batch and each job is what waited, each scheduler takes and
/// gives in turns, takes only where it has a turn, and gives what its last instant sent, each worker
/// posts all that its job sends before it picks the next, and each client of the source gives its
/// orders as the source has them.
pub fn made_histories_are_legal()
    ensures legal { (x : Prog) (o : RunOptions) (choices : List Choice) (h : List Entry) → hist x o choices ≡ Ok h → IsLegal x o h }
    ensures callers { (x : Prog) (o : RunOptions) (choices : List Choice) (h : List Entry) → hist x o choices ≡ Ok h → HasNoCallers (heads x) h }
    ensures choices { (x : Prog) (o : RunOptions) (choices : List Choice) (h : List Entry) → hist x o choices ≡ Ok h → map choice_of h ≡ choices }
{}

/// A history without callers is legal exactly where it is the history of its choices.
pub fn legal_histories_are_made()
    ensures { (x : Prog) (o : RunOptions) (h : List Entry) → HasNoCallers (heads x) h
        → IsLegal x o h ↔ (hist x o (map choice_of h) ≡ Ok h) }
{}

/// A history, with callers or without, is legal exactly where each entry may come after those before
/// it: it is the entry of its choice, or an order that a caller may give.
pub fn legal_histories_grow_by_entries()
    ensures { (x : Prog) (o : RunOptions) (h : List Entry) → IsLegal x o h ↔ AtEach (ComesNext x o) h }
{}

/// What has become of an actor is told by its own entries: what a scheduler took and whether it is in
/// an instant, what a worker has still to post and whether it has a job in hand, how many creates a
/// client has given and what it has still to give. A client of the source has given as many of its
/// orders as it has entries.
pub fn own_entries_tell()
    ensures scheduler { (s : SchedId) (es : List Entry) → let own = of (Sched s) es in
        (log s own ≡ log s es) × (is_open s own ≡ is_open s es) }
    ensures worker { (x : Prog) (o : RunOptions) (w : ℕ) (es : List Entry) → let own = of (Worker w) es in
        (unposted x o w own ≡ unposted x o w es) × (is_busy w own ≡ is_busy w es) }
    ensures client { (h : Heads) (c : ℕ) (es : List Entry) → let own = of (Client c) es in
        (creates c own ≡ creates c es) × (unsent h c own ≡ unsent h c es) }
    ensures given { (h : Heads) (c : ℕ) (es : List Entry)
        → unsent h c es ≡ drop (length (of (Client c) es)) (outside_of h c) }
{}

/// An actor's own list grows by one entry exactly where this is its next: it was as it has to be
/// before, and stays so (`grows`). Which entry is the next of an actor is told by the whole history,
/// of whomever its other entries are (`in_history`). So a list that grows by next entries, from none
/// (`begins`), is as it has to be: of a scheduler, a worker, a client of the source, or a caller.
pub fn own_lists_grow()
    ensures begins { (x : Prog) (o : RunOptions) (a : Actor) → IsFaithful x o a [] }
    ensures grows { (x : Prog) (o : RunOptions) (a : Actor) (own : List Entry) (e : Entry)
        → All (λ d. IsTrue (same_actor a (actor_of d))) own
        → IsFaithful x o a (own ++ e ∷ []) ↔ IsFaithful x o a own × IsNextOf x o a own e }
    ensures in_history { (x : Prog) (o : RunOptions) (a : Actor) (h : List Entry) (e : Entry)
        → IsFaithful x o a (of a h ++ e ∷ []) ↔ IsFaithful x o a (of a h) × IsNextOf x o a h e }
{}

/// A history has ended exactly where no choice is allowed after it. At least one worker is asked:
/// without one a thread that waits for a worker would wait for ever.
pub fn ended_histories_go_no_further()
    ensures { (x : Prog) (o : RunOptions) (h : List Entry) → 0 < o.workers
        → HasEnded x o h ↔ ((c : Choice) → entry_of x o h c ≡ None) }
{}

/// What a scheduler has used of its bounds is told by its block of the report, as its instants have
/// left it: how many instants it has, how many bytes it has before its final state, its first line
/// among them, and how many threads went to the workers. Bytes and threads stop at the end of 64
/// bits.
pub fn blocks_tell_what_is_used()
    ensures number { (x : Prog) (limits : Limits) (s : SchedId) (batches : List (List Order))
        → (replay x limits s batches).machine.tally.number ≡ length batches }
    ensures bytes { (x : Prog) (limits : Limits) (s : SchedId) (batches : List (List Order))
        → let r = replay x limits s batches in
        r.machine.tally.bytes ≡ capped (length (text_of (begun_lines (heads x) s batches r.notes))) }
    ensures gone { (x : Prog) (limits : Limits) (s : SchedId) (batches : List (List Order))
        → let r = replay x limits s batches in
        r.machine.tally.gone ≡ capped (length (jobs_sent (flat_map (λ n. n.sent) r.notes))) }
{}

/// Where a thread ends at a scheduler, this one knows it and is sent no order of it (`own`), and each
/// other one is told (`others`); where it ends without being linked, each scheduler is told
/// (`unlinked`).
pub fn ends_are_told_elsewhere()
    ensures own { (s : SchedId) (t : ThreadId) (end : End)
        → is_addressed s (tell_end (place.Sched s) t end).to ≡ false }
    ensures others { (s q : SchedId) (t : ThreadId) (end : End) → same_scheduler q s ≡ false
        → is_addressed q (tell_end (place.Sched s) t end).to ≡ true }
    ensures unlinked { (q : SchedId) (t : ThreadId) (end : End)
        → is_addressed q (tell_end place.Unlinked t end).to ≡ true }
{}
