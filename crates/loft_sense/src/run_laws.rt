//! Laws of runs, passes and instants. Each is what the contract of an empty function says.

ghost use Rattle.std.specs.Prelude.{◌≡◌, ◌≤◌, ◌+◌, ℕ, false};
ghost use Rattle.std.specs.Prelude.{List, [], ◌∷◌, ◌++◌, length, All};
ghost use Rattle.std.specs.List.{count_by};
ghost use Rattle.loft_tree.specs.declared.heads.Heads.{Heads};
ghost use Rattle.loft_base.specs.declared.ids.SchedId.{SchedId};
ghost use Rattle.loft_base.specs.declared.options.Limits.{Limits};
ghost use Rattle.loft_sense.specs.declared.limits.TheConstants.{MAX_ENTRIES};
ghost use Rattle.loft_orders.specs.declared.order.At.{At};
ghost use Rattle.loft_orders.specs.declared.order.End.TheVariants.{Over};
ghost use Rattle.loft_orders.specs.declared.order.Order.{Order};
ghost use Rattle.loft_orders.specs.declared.thread.Frame.{Frame};
ghost use Rattle.loft_orders.specs.declared.thread.Thread.{Thread};
ghost use Rattle.loft_sense.specs.Machine.{Prog, Mach, heads};
ghost use Rattle.loft_sense.specs.Around.{Around};
ghost use Rattle.loft_sense.specs.CanGo.{has_any};
ghost use Rattle.loft_sense.specs.Statements.{most_entries};
ghost use Rattle.loft_sense.specs.Run.{Ended, beside, ends};
ghost use Rattle.loft_board.specs.Board.{generate_all};
ghost use Rattle.loft_sense.specs.LawWords.{is_entry, events_in, instant_walk, KeepsEvents};
ghost use Rattle.loft_sense.specs.LawWords.{Tells, generated_in, ended_in};
ghost use Rattle.loft_sense.specs.Passes.{Runner, run_of, runners_after, around_after};
ghost use Rattle.loft_sense.specs.Passes.{walked, pass, passes_within, passes};
ghost use Rattle.loft_sense.specs.Moments.{Moment, moment, end_of, moments_of_pass, moments};
ghost use Rattle.loft_sense.specs.Moments.{RunByRun, last_or, IsKeptByRuns};
ghost use Rattle.loft_sense.specs.Apply.{Applied, apply_order, apply};
ghost use Rattle.loft_sense.specs.Instant.{instant};

use std::marker::Brand;

/// A run of a thread makes no more entries than an instant of its place may have. Its prints,
/// generated events and orders are its entries, and its creates are among them.
pub fn runs_make_few_entries()
    ensures few { (x : Prog) (t : Thread) (around : Around) (n : ℕ)
        → let after = around_after (run_of x t around n) in
        around.entries ≤ most_entries around.place → after.entries ≤ most_entries after.place }
    ensures acts { (x : Prog) (t : Thread) (around : Around) (n : ℕ)
        → let after = around_after (run_of x t around n) in
        count_by is_entry after.acts + around.entries
        ≡ count_by is_entry around.acts + after.entries }
    ensures creates { (x : Prog) (t : Thread) (around : Around) (n : ℕ)
        → let after = around_after (run_of x t around n) in
        after.made + around.entries ≤ around.made + after.entries }
{}

/// A run of a thread leaves its place as it was, and how many events the board and how many
/// variables the place has.
pub fn runs_keep_what_is_declared()
    ensures place { (x : Prog) (t : Thread) (around : Around) (n : ℕ)
        → (around_after (run_of x t around n)).place ≡ around.place }
    ensures events { (x : Prog) (t : Thread) (around : Around) (n : ℕ)
        → length (around_after (run_of x t around n)).board ≡ length around.board }
    ensures shared { (x : Prog) (t : Thread) (around : Around) (n : ℕ)
        → length (around_after (run_of x t around n)).shared ≡ length around.shared }
{}

/// An instant makes at most `MAX_ENTRIES` entries, and no more creates.
pub fn instants_make_few_entries()
    ensures entries { (x : Prog) (limits : Limits) (m : Mach) (batch : List Order)
        → count_by is_entry (instant x limits m batch).note.acts ≤ MAX_ENTRIES }
    ensures creates { (x : Prog) (limits : Limits) (m : Mach) (batch : List Order)
        → (instant x limits m batch).machine.made ≤ m.made + MAX_ENTRIES }
{}

/// An instant is one more of the same scheduler, with as many shared variables. Its batch and its
/// passes have the board of the events that are declared.
pub fn instants_keep_what_is_declared()
    ensures scheduler { (x : Prog) (limits : Limits) (m : Mach) (batch : List Order)
        → (instant x limits m batch).machine.s ≡ m.s }
    ensures number { (x : Prog) (limits : Limits) (m : Mach) (batch : List Order)
        → (instant x limits m batch).machine.tally.number ≡ m.tally.number + 1 }
    ensures shared { (x : Prog) (limits : Limits) (m : Mach) (batch : List Order)
        → length (instant x limits m batch).machine.shared ≡ length m.shared }
    ensures batch { (x : Prog) (m : Mach) (batch : List Order)
        → length (apply x m batch).board ≡ length (heads x).events }
    ensures passes { (x : Prog) (rs : List Runner) (around : Around)
        → length (passes x rs around).around.board ≡ length around.board }
{}

/// In an instant with a budget of B steps a thread runs at most B + 1 times, over all its passes.
/// Each run that holds it or lets it leave takes a step or more of those that it has left, so a
/// thread that is still linked ran at most B times: after a run (`run`), after so many passes
/// (`kept`), and in an instant (`runs`). One that ran B times ends by its next run with Over, at
/// its innermost frame (`last`). A thread that hasn't run has all its steps (`whole`), and none
/// ends with Over while it has any (`over`).
pub fn threads_run_within_the_budget()
    ensures run { (x : Prog) (budget : ℕ) (r : Runner) (around : Around)
        → r.runs + r.left ≤ budget
        → All (λ s. s.runs + s.left ≤ budget) (runners_after r (run_of x r.thread around r.left)) }
    ensures kept { (x : Prog) (budget passes : ℕ) (rs : List Runner) (around : Around)
        → All (λ r. r.runs + r.left ≤ budget) rs
        → All (λ r. r.runs + r.left ≤ budget) (passes_within passes x rs around).runners }
    ensures runs { (x : Prog) (limits : Limits) (m : Mach) (batch : List Order)
        → All (λ r. r.runs + r.left ≤ limits.budget) (instant_walk x limits m batch).runners }
    ensures whole { (x : Prog) (limits : Limits) (m : Mach) (batch : List Order)
        → All (λ r. r.runs ≡ 0 → r.left ≡ limits.budget) (instant_walk x limits m batch).runners }
    ensures last { (x : Prog) (budget : ℕ) (r : Runner) (around : Around)
        → (outer : List Frame) (f : Frame)
        → r.runs + r.left ≤ budget → r.runs ≡ budget → r.thread.frames ≡ outer ++ f ∷ []
        → run_of x r.thread around r.left
        ≡ ends (Over (record { «module» = f.module; stop = f.stop })) (beside r.thread around) 0 }
    ensures over { (x : Prog) (t : Thread) (around : Around) (n : ℕ)
        → (at : At) (after : Around) (left : ℕ)
        → run_of x t around n ≡ Ended (Over at) after left → left ≡ 0 }
{}

/// A pass runs each thread at most once (`once`). It takes the threads in their order: those in
/// front, and then the rest with what these left around them (`order`). So a thread that an event
/// wakes runs as the pass reaches it, or in the next pass where it was reached before.
pub fn passes_go_in_order()
    ensures once { (x : Prog) (n : ℕ) (rs : List Runner) (around : Around)
        → All (λ r. r.runs ≤ n) rs → All (λ r. r.runs ≤ n + 1) (pass x rs around).runners }
    ensures order { (x : Prog) (rs rest : List Runner) (around : Around)
        → let front = pass x rs around in
        pass x (rs ++ rest) around ≡ walked front.runners front.ran (pass x rest front.around) }
{}

/// The acts tell what was done: over a run, a pass and all passes the acts are those before it and
/// more, the board is the one before it with the events that these generated, each with its value, in
/// this order, and the known threads are those before it and those whose ends are among these. So the
/// acts of an instant's note tell its board after the last run, from that of its batch (`board`), and
/// the threads that are known after it (`known`).
pub fn acts_tell_what_was_done()
    ensures run { (x : Prog) (t : Thread) (around : Around) (n : ℕ)
        → Tells around (around_after (run_of x t around n)) }
    ensures pass { (x : Prog) (rs : List Runner) (around : Around)
        → Tells around (pass x rs around).around }
    ensures passes { (x : Prog) (rs : List Runner) (around : Around)
        → Tells around (passes x rs around).around }
    ensures board { (x : Prog) (limits : Limits) (m : Mach) (batch : List Order)
        → (instant_walk x limits m batch).around.board
        ≡ generate_all (generated_in (instant x limits m batch).note.acts) (apply x m batch).board }
    ensures known { (x : Prog) (limits : Limits) (m : Mach) (batch : List Order)
        → (instant x limits m batch).machine.known
        ≡ (apply x m batch).known ++ ended_in (instant x limits m batch).note.acts }
{}

/// A claim about the moments of an instant, for proofs alone: what a law says of any claim, it says
/// of each type that has this trait.
pub trait Claim {
    /// What is claimed of a moment.
    ghost holds: { Moment → Type 0 };
}

impl Claim for Brand {
    ghost holds = { λ m. Unit {0} };
}

/// From what a pass, or all passes of an instant, begin with, each of their moments is one run of a
/// thread that can go after the moment before it, and the last is what they leave.
pub fn moments_go_run_by_run()
    ensures pass { (x : Prog) (rs : List Runner) (around : Around)
        → RunByRun x (moment rs around) (moments_of_pass x rs around) }
    ensures pass_ends { (x : Prog) (rs : List Runner) (around : Around)
        → last_or (moment rs around) (moments_of_pass x rs around) ≡ end_of (pass x rs around) }
    ensures passes { (x : Prog) (rs : List Runner) (around : Around)
        → RunByRun x (moment rs around) (moments x rs around) }
    ensures passes_end { (x : Prog) (rs : List Runner) (around : Around)
        → last_or (moment rs around) (moments x rs around) ≡ end_of (passes x rs around) }
{}

/// What holds as a pass, or the passes of an instant, begin, and is kept by each run of a thread that
/// can go, holds after each run, and of what they leave.
pub fn what_runs_keep_holds_between_them<C: Claim>()
    ensures pass { (x : Prog) → IsKeptByRuns x C.holds → (rs : List Runner) (around : Around)
        → C.holds (moment rs around)
        → All C.holds (moments_of_pass x rs around) × C.holds (end_of (pass x rs around)) }
    ensures passes { (x : Prog) → IsKeptByRuns x C.holds → (rs : List Runner) (around : Around)
        → C.holds (moment rs around)
        → All C.holds (moments x rs around) × C.holds (end_of (passes x rs around)) }
{}

/// Within an instant an event that is present stays present, and its values stay the first ones
/// that it has: over each order of the batch, each run, each pass and all passes. There is one
/// board for all threads: each run of a pass begins with the board that the one before it left
/// (`passes_go_in_order`).
pub fn events_stay_present_in_an_instant()
    ensures order { (h : Heads) (s : SchedId) (a : Applied) (o : Order)
        → KeepsEvents a.board (apply_order h s a o).board }
    ensures run { (x : Prog) (t : Thread) (around : Around) (n : ℕ)
        → KeepsEvents around.board (around_after (run_of x t around n)).board }
    ensures pass { (x : Prog) (rs : List Runner) (around : Around)
        → KeepsEvents around.board (pass x rs around).around.board }
    ensures passes { (x : Prog) (rs : List Runner) (around : Around)
        → KeepsEvents around.board (passes x rs around).around.board }
{}

/// After an instant no linked thread that isn't suspended waits for events one of which was present
/// in it.
pub fn nobody_waits_for_a_present_event()
    ensures { (x : Prog) (limits : Limits) (m : Mach) (batch : List Order)
        → let board = (instant_walk x limits m batch).around.board in
        All (λ s. s.suspended ≡ false → has_any (events_in s.thread.wait) board ≡ false)
        (instant x limits m batch).machine.linked }
{}
