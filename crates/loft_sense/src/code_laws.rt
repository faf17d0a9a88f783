//! Laws of the codes that stops and waits set. Each is what the contract of an empty function says.

ghost use Rattle.std.specs.Prelude.{◌≡◌, ◌⊎◌, ℕ, true, false, if◌then◌else◌};
ghost use Rattle.std.specs.Prelude.{ℤ, pos, ◌-ℤ◌, ◌≤ℤ◌, int_lt, List, Option, Some, All};
ghost use Rattle.std.specs.Option.{option_map};
ghost use Rattle.loft_base.specs.declared.ids.EventId.{EventId};
ghost use Rattle.loft_base.specs.declared.ids.SchedId.{SchedId};
ghost use Rattle.loft_base.specs.declared.ids.Value.{Value};
ghost use Rattle.loft_tree.specs.declared.heads.Heads.{Heads};
ghost use Rattle.loft_tree.specs.Resolved.{Action, Pause};
ghost use Rattle.loft_base.specs.declared.options.Limits.{Limits};
ghost use Rattle.loft_orders.specs.declared.order.At.{At};
ghost use Rattle.loft_orders.specs.declared.order.Order.{Order};
ghost use Rattle.loft_orders.specs.declared.order.To.{To};
ghost use Rattle.loft_orders.specs.declared.thread.Thread.{Thread};
ghost use Rattle.loft_orders.specs.declared.thread.Wait.{Wait};
ghost use Rattle.loft_orders.specs.declared.thread.Wait.TheVariants.{Index, Next};
ghost use Rattle.loft_sense.specs.Machine.{Prog, Mach};
ghost use Rattle.loft_sense.specs.Around.{Around, Beside};
ghost use Rattle.loft_sense.specs.Statements.{GoesOn, Now, code_ok, code_timeout, code_next, did, begun, answered};
ghost use Rattle.loft_sense.specs.Run.{Held, Left};
ghost use Rattle.loft_sense.specs.Passes.{Runner, run_of, passes_within};
ghost use Rattle.loft_sense.specs.Apply.{apply};
ghost use Rattle.loft_sense.specs.Instant.{closed_wait, has_run, lowered, replay};
ghost use Rattle.loft_sense.specs.Fits.{Fits};
ghost use Rattle.loft_sense.specs.LawWords.{instant_walk};
ghost use Rattle.loft_sense.specs.WaitCodes.{IsPending, number_left, limit_number};
ghost use Rattle.loft_sense.specs.WaitCodes.{stop_sets_code, wait_sets_code};
ghost use Rattle.loft_sense.specs.CodeOrigins.{CodeComesFrom, ArrivesNew, IsSetByClose};

/// A stop that goes on as it begins sets the code to OK, or to TIMEOUT where it has a limit of at
/// most 0, and never to NEXT. A stop that is no wait for events, a value or a thread leaves the
/// code (`keeps`), and so does each statement that isn't a stop (`acts`).
pub fn stops_set_codes_as_they_begin()
    ensures sets { (h : Heads) (pause : Pause) (at : At) (values : List Value) (b : Beside)
        → (now : Now) → begun h pause at values b ≡ GoesOn now → stop_sets_code pause ≡ true
        → (now.beside.code ≡ code_ok)
        ⊎ ((now.beside.code ≡ code_timeout)
        × ((n : ℤ) × ((limit_number h pause values b ≡ Some n) × (n ≤ℤ pos 0)))) }
    ensures keeps { (h : Heads) (pause : Pause) (at : At) (values : List Value) (b : Beside)
        → (now : Now) → begun h pause at values b ≡ GoesOn now → stop_sets_code pause ≡ false
        → now.beside.code ≡ b.code }
    ensures acts { (h : Heads) (action : Action) (at : At) (values : List Value) (b : Beside)
        → (now : Now) → did h action at values b ≡ GoesOn now → now.beside.code ≡ b.code }
{}

/// A wait that ends sets the code to OK, to TIMEOUT only where the number left in it is 0, and to
/// NEXT only where it is marked. One that is pending sets it to OK. A wait that is for no event,
/// value or thread leaves the code.
pub fn waits_set_codes_as_they_end()
    ensures sets { (h : Heads) (pause : Option Pause) (w : Wait) (values : List Value) (b : Beside)
        → wait_sets_code w ≡ true → let code = (answered h pause w values b).beside.code in
        (code ≡ code_ok)
        ⊎ (((code ≡ code_timeout) × (number_left w ≡ Some (pos 0)))
        ⊎ ((code ≡ code_next) × (w ≡ Next))) }
    ensures pending { (h : Heads) (pause : Option Pause) (w : Wait) (values : List Value)
        → (b : Beside) → IsPending w → wait_sets_code w ≡ true
        → (answered h pause w values b).beside.code ≡ code_ok }
    ensures keeps { (h : Heads) (pause : Option Pause) (w : Wait) (values : List Value) (b : Beside)
        → wait_sets_code w ≡ false → (answered h pause w values b).beside.code ≡ b.code }
{}

/// A wait is pending in the instant in which it begins: as a run holds its thread (`held`), and for
/// each thread that ran in an instant, after each pass (`kept`) up to the close (`ran`). So TIMEOUT
/// and NEXT come by a number or a mark that an earlier close has set, or at once by a limit of at
/// most 0.
pub fn waits_are_pending_until_the_close()
    ensures held { (x : Prog) (t : Thread) (around : Around) (n : ℕ)
        → (u : Thread) (after : Around) (left : ℕ)
        → run_of x t around n ≡ Held u after left → IsPending u.wait }
    ensures kept { (x : Prog) (passes : ℕ) (rs : List Runner) (around : Around)
        → All (λ r. has_run r ≡ true → IsPending r.thread.wait) rs
        → All (λ r. has_run r ≡ true → IsPending r.thread.wait)
        (passes_within passes x rs around).runners }
    ensures ran { (x : Prog) (limits : Limits) (m : Mach) (batch : List Order)
        → All (λ r. has_run r ≡ true → IsPending r.thread.wait)
        (instant_walk x limits m batch).runners }
{}

/// A run leaves the code of its thread, or sets it to OK, to TIMEOUT where no instant was left of its
/// wait or where, as it runs, it begins a stop whose limit is at most 0, or to NEXT where its wait was
/// marked (`CodeComesFrom`): where a stop holds the thread (`held`), and where it leaves (`left`).
pub fn codes_come_from_waits_and_limits()
    ensures held { (x : Prog) (t : Thread) (around : Around) (n : ℕ)
        → (u : Thread) (after : Around) (left : ℕ)
        → run_of x t around n ≡ Held u after left → CodeComesFrom x t around u.code }
    ensures left { (x : Prog) (t : Thread) (around : Around) (n : ℕ)
        → (u : Thread) (to : To) (after : Around) (left : ℕ)
        → run_of x t around n ≡ Left u to after left → CodeComesFrom x t around u.code }
{}

/// A mark (`marked`), or a number 0 (`ran_out`), that a thread's wait has as an instant begins was set
/// by the close of an earlier instant, and was pending before it. Threads arrive with new waits, as
/// `Fits` says.
pub fn earlier_closes_set_marks_and_zeros()
    ensures marked { (x : Prog) (limits : Limits) (s : SchedId)
        → (batches : List (List Order)) (batch : List Order)
        → All (All ArrivesNew) batches → All ArrivesNew batch
        → All (λ q. q.thread.wait ≡ Next → IsSetByClose x limits s batches q.thread)
        (apply x (replay x limits s batches).machine batch).linked }
    ensures ran_out { (x : Prog) (limits : Limits) (s : SchedId)
        → (batches : List (List Order)) (batch : List Order)
        → All (All ArrivesNew) batches → All ArrivesNew batch
        → All (λ q. number_left q.thread.wait ≡ Some (pos 0)
        → IsSetByClose x limits s batches q.thread)
        (apply x (replay x limits s batches).machine batch).linked }
    ensures fits { (x : Prog) (s : SchedId) (o : Order) → Fits x s o → ArrivesNew o }
{}

/// The close marks no wait but one for a value, and lowers the number left in a wait by one where
/// it is above 0.
pub fn the_close_marks_and_lowers()
    ensures marks { (w : Wait) → closed_wait w ≡ Next
        → (w ≡ Next) ⊎ ((event : EventId) × (at : ℤ) × (w ≡ Index event at)) }
    ensures number { (w : Wait) → number_left (closed_wait w) ≡ option_map lowered (number_left w) }
    ensures lowers { (n : ℤ) → lowered n ≡ (if int_lt (pos 0) n then n -ℤ pos 1 else n) }
{}
