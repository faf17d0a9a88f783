//! Laws of threads that stand. Each is what the contract of an empty function says.

ghost use Rattle.std.specs.Prelude.{◌≡◌, ◌<◌, ℕ, suc, ℤ, pos, true, List, length, All, Some, slice_get};
ghost use Rattle.loft_base.specs.declared.ids.EventId.{EventId};
ghost use Rattle.loft_base.specs.declared.ids.ModuleId.{ModuleId};
ghost use Rattle.loft_base.specs.declared.ids.SchedId.{SchedId};
ghost use Rattle.loft_base.specs.declared.ids.SharedId.{SharedId};
ghost use Rattle.loft_base.specs.declared.ids.Value.{Value};
ghost use Rattle.loft_tree.specs.declared.kinds.Kind.{Kind};
ghost use Rattle.loft_tree.specs.declared.heads.Place.{Place};
ghost use Rattle.loft_tree.specs.declared.heads.Place.TheVariants.{Unlinked};
ghost use Rattle.loft_tree.specs.declared.heads.Heads.{Heads};
ghost use Rattle.loft_tree.specs.Fits.{IfThere};
ghost use Rattle.loft_tree.specs.NamedTree.{NamedProgram};
ghost use Rattle.loft_tree.specs.NamedFits.{IsScheduler, NamedFits};
ghost use Rattle.loft_tree.specs.Resolved.{Exp, Pause, Resolved, resolved_of};
ghost use Rattle.loft_code.specs.Operations.{Automata};
ghost use Rattle.loft_orders.specs.declared.thread.Frame.{Frame};
ghost use Rattle.loft_orders.specs.declared.thread.Thread.{Thread};
ghost use Rattle.loft_sense.specs.Heads.{rank};
ghost use Rattle.loft_base.specs.declared.options.Limits.{Limits};
ghost use Rattle.loft_orders.specs.declared.order.Order.{Order};
ghost use Rattle.loft_sense.specs.Machine.{Prog, Tree, Code, heads, Mach, empty};
ghost use Rattle.loft_sense.specs.Around.{Around, Beside};
ghost use Rattle.loft_sense.specs.CanGo.{is_index};
ghost use Rattle.loft_sense.specs.Eval.{eval, eval_all};
ghost use Rattle.loft_sense.specs.Run.{Active, frame_of, active_of, live, going};
ghost use Rattle.loft_sense.specs.Passes.{run_of};
ghost use Rattle.loft_sense.specs.Tree.{Work, next_work, tree};
ghost use Rattle.loft_sense.specs.Code.{Point, code};
ghost use Rattle.loft_sense.specs.Stands.{Pauses, StopAt, program_stop, FrameStands, Stands};
ghost use Rattle.loft_sense.specs.Fits.{IsThread, ThreadNames, Fits};
ghost use Rattle.loft_sense.specs.Instant.{instant};
ghost use Rattle.loft_sense.specs.Async.{async};
ghost use Rattle.loft_history.specs.Clients.{outside_of};
ghost use Rattle.loft_history.specs.History.{starts_from, orders_to};
ghost use Rattle.loft_soundness.specs.WellFormed.{IsWellFormed, PointOf, control};
ghost use Rattle.loft_soundness.specs.Numbered.{IsNumbered};
ghost use Rattle.loft_soundness.specs.Left.{IsLeft, LeavesAfter};
ghost use Rattle.loft_soundness.specs.WorkFits.{IsShared, IsEvent, HasKind, ArgumentsFit};
ghost use Rattle.loft_soundness.specs.Points.{ValueFits, ValuesFit, HasValues, AroundFits, PointFits};
ghost use Rattle.loft_soundness.specs.Points.{FrontFits, FrontLands, GoesOnlyTo, LeavesStanding};
ghost use Rattle.loft_soundness.specs.Machines.{ThreadFits, MachFits, SentFits};

/// Where running a module reaches a stop, the work that is left there is what the program says
/// comes after the stop, with the counts that are left: a thread can be kept by the number of its
/// stop and its counts alone. The other way round, a frame that stands at a stop keeps its counts,
/// each of them, where it goes on. Programs whose names are correct have their stops numbered so.
pub fn stops_leave_what_comes_after()
    ensures after { (p : Resolved) → IsNumbered p
        → (m : ModuleId) (w : List Work) → IsLeft p m w → LeavesAfter p m (next_work w) }
    ensures kept { (p : Resolved) (f : Frame) (at : StopAt) → FrameStands (Tree p) f at
        → frame_of (tree p) (active_of (tree p) f) ≡ f }
    ensures numbered { (n : NamedProgram) → NamedFits n → IsNumbered (resolved_of n) }
{}

/// A thread that stands in a well-formed program, a placed source or valid code, and is run there,
/// with any bound, stands again where a stop holds it, and where it leaves, it stands where it
/// goes. It names only threads that are declared, an end names a module that is, each order that
/// it sends fits where it goes, and what stands around it is still as it has to be for the next
/// thread.
pub fn threads_keep_standing()
    ensures { (x : Prog) → IsWellFormed x
        → (t : Thread) (place : Place) (around : Around) (left : ℕ)
        → Stands x t place → ThreadNames (heads x) t → AroundFits (heads x) place around
        → LeavesStanding x place (run_of x t around left) }
{}

/// A thread that stands in a well-formed program and is run there finds all that it asks for. It
/// goes on at a point that fits, and each step from such a point goes on only at such points, with
/// as many shared values. What comes next at one names only what is declared and there, with the
/// kinds that it takes: each slot has a value of its kind, each event its room on the board, each
/// stop what it waits for, each index that a wait for a value ends with its value, and each
/// expression a value of its kind, unless a divisor is 0. Where there are as many shared values as
/// shared variables, as there are in each machine of a history, each has its value. In code what
/// comes next is an operation that is there and no jump, where the thread is linked and with as many
/// counts as its depth, and a `turn` has a count.
pub fn well_formed_programs_never_stick()
    ensures begins { (x : Prog) → IsWellFormed x
        → (t : Thread) (place : Place) (around : Around)
        → Stands x t place → ThreadNames (heads x) t → AroundFits (heads x) place around
        → (b : Beside) × (rs : List (Active (PointOf x)))
        × PointFits x place (length around.shared) b rs
        × ((left : ℕ) → run_of x t around (suc left) ≡ going (control x) left b rs) }
    ensures goes_on { (x : Prog) → IsWellFormed x
        → (place : Place) (count : ℕ) (b : Beside) (rs : List (Active (PointOf x)))
        → PointFits x place count b rs
        → GoesOnlyTo (control x) (PointFits x place count) b rs }
    ensures next { (x : Prog) → IsWellFormed x
        → (place : Place) (count : ℕ) (b : Beside) (rs : List (Active (PointOf x)))
        → PointFits x place count b rs → FrontFits x place (live (control x) rs) }
    ensures operations { (c : Automata) → IsWellFormed (Code c)
        → (place : Place) (count : ℕ) (b : Beside) (rs : List (Active Point))
        → PointFits (Code c) place count b rs → FrontLands c place (live (code c) rs) }
    ensures slots { (h : Heads) (slots : List Kind) (values : List Value) (k : ℕ) (kind : Kind)
        → ValuesFit h slots values → slice_get slots k ≡ Some kind
        → (v : Value) × (slice_get values k ≡ Some v) × ValueFits h kind v }
    ensures shared { (x : Prog)
        → (place : Place) (count : ℕ) (b : Beside) (rs : List (Active (PointOf x)))
        → PointFits x place count b rs → HasValues (heads x) place count
        → (y : SharedId) → IsShared (heads x) place y
        → (i : ℤ) × (slice_get b.around.shared (rank (heads x) y) ≡ Some i) }
    ensures events { (h : Heads) (place : Place) (around : Around) (e : EventId)
        → IsEvent h place e → AroundFits h place around → e.0 < length around.board }
    ensures pauses { (x : Prog) (m : ModuleId) (k : ℕ) (at : StopAt) (pause : Pause)
        → program_stop x m k ≡ Some at → at.kind ≡ Pauses pause
        → (control x).pause m k ≡ Some pause }
    ensures indexes { (values : List ℤ) (i : ℤ) → is_index i (length values) ≡ true
        → (k : ℕ) × (v : ℤ) × (i ≡ pos k) × (slice_get values k ≡ Some v) }
    ensures values { (h : Heads) (slots : List Kind) (place : Place) (values : List Value)
        → (b : Beside) → ValuesFit h slots values → IsThread h b.id
        → (e : Exp) (kind : Kind) → HasKind h slots place e kind
        → IfThere (ValueFits h kind) (eval h values b e) }
    ensures arguments { (h : Heads) (slots : List Kind) (place : Place) (values : List Value)
        → (b : Beside) → ValuesFit h slots values → IsThread h b.id
        → (kinds : List Kind) (es : List Exp) → ArgumentsFit h slots place kinds es
        → IfThere (ValuesFit h kinds) (eval_all h values b es) }
{}

/// An instant on a machine whose threads stand, with a batch whose orders fit, leaves a machine
/// whose threads stand. Each order that it sends fits at each scheduler to which it is addressed,
/// and each thread that it sends to the workers stands unlinked; so it is with all that such a
/// thread sends, and with the orders of each client of the source. A scheduler that has made no
/// instant is such a machine, and the orders of the starts fit.
pub fn instants_keep_standing()
    ensures begins { (x : Prog) (s : SchedId) → IsScheduler (heads x) s → MachFits x (empty x s) }
    ensures starts { (x : Prog) → IsWellFormed x
        → (s : SchedId) → All (Fits x s) (starts_from s 0 (heads x).starts) }
    ensures machine { (x : Prog) → IsWellFormed x
        → (limits : Limits) (m : Mach) (batch : List Order)
        → MachFits x m → All (Fits x m.s) batch → MachFits x (instant x limits m batch).machine }
    ensures sent { (x : Prog) → IsWellFormed x
        → (limits : Limits) (m : Mach) (batch : List Order)
        → MachFits x m → All (Fits x m.s) batch
        → let sent = (instant x limits m batch).note.sent in
        All (SentFits x) sent × ((s : SchedId) → IsScheduler (heads x) s
        → All (Fits x s) (orders_to s sent)) }
    ensures unlinked { (x : Prog) → IsWellFormed x
        → (t : Thread) (block : ℕ) → ThreadFits x Unlinked t
        → let sent = async x t block in
        All (SentFits x) sent × ((s : SchedId) → IsScheduler (heads x) s
        → All (Fits x s) (orders_to s sent)) }
    ensures clients { (x : Prog) → IsWellFormed x
        → (c : ℕ) → let sent = outside_of (heads x) c in
        All (SentFits x) sent × ((s : SchedId) → IsScheduler (heads x) s
        → All (Fits x s) (orders_to s sent)) }
{}
