//! The law by which orders can be given before a run has ended. It is what the contract of an empty function says.

ghost use Rattle.std.specs.Prelude.{◌≡◌, ◌++◌, ℕ, List};
ghost use Rattle.loft_tree.specs.declared.heads.Place.TheVariants.{Unlinked};
ghost use Rattle.loft_tree.specs.Resolved.{Resolved};
ghost use Rattle.loft_code.specs.Operations.{Automata};
ghost use Rattle.loft_orders.specs.declared.note.Act.{Act};
ghost use Rattle.loft_orders.specs.declared.thread.Thread.{Thread};
ghost use Rattle.loft_sense.specs.Machine.{Prog};
ghost use Rattle.loft_sense.specs.Around.{Around, Beside};
ghost use Rattle.loft_sense.specs.Run.{Active, Outcome, going};
ghost use Rattle.loft_sense.specs.Tree.{Work, tree};
ghost use Rattle.loft_sense.specs.Code.{Point, code};
ghost use Rattle.loft_sense.specs.Passes.{run_of};
ghost use Rattle.loft_sense.specs.Instant.{sent_by};
ghost use Rattle.loft_sense.specs.Async.{block_sent};
ghost use Rattle.loft_block.specs.Preceded.{around_preceded, beside_preceded, outcome_preceded};

/// What was done before a run changes nothing of it: with further acts before those around it, it
/// comes to the same, but that its acts begin with them (`run`). So it is from each point in its
/// midst, of a tree (`tree`) and of code (`code`); and what such a run sends is what these acts
/// send, and then the rest (`sent`).
pub fn what_was_done_before_changes_nothing()
    ensures run { (x : Prog) (t : Thread) (around : Around) (n : ℕ) (acts : List Act)
        → run_of x t (around_preceded acts around) n
        ≡ outcome_preceded acts (run_of x t around n) }
    ensures tree { (p : Resolved) (n : ℕ) (b : Beside) (rs : List (Active (List Work))) (acts : List Act)
        → going (tree p) n (beside_preceded acts b) rs
        ≡ outcome_preceded acts (going (tree p) n b rs) }
    ensures code { (c : Automata) (n : ℕ) (b : Beside) (rs : List (Active Point)) (acts : List Act)
        → going (code c) n (beside_preceded acts b) rs
        ≡ outcome_preceded acts (going (code c) n b rs) }
    ensures sent { (acts : List Act) (o : Outcome)
        → block_sent (outcome_preceded acts o) ≡ sent_by Unlinked acts ++ block_sent o }
{}
