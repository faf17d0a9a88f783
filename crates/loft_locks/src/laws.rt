//! Laws of locks. Each is what the contract of an empty function says.

ghost use Rattle.std.specs.Prelude.{◌≡◌, ◌↔◌, ℕ, pos, Bool, true, false, List, [], ◌∷◌, None};
ghost use Rattle.loft_base.specs.declared.ids.ModuleId.{ModuleId};
ghost use Rattle.loft_tree.specs.NamedTree.{NamedStatements};
ghost use Rattle.loft_tree.specs.Resolved.{Resolved, body_of};
ghost use Rattle.loft_orders.specs.declared.entry.Entry.{Entry};
ghost use Rattle.loft_base.specs.declared.options.RunOptions.{RunOptions};
ghost use Rattle.loft_sense.specs.Machine.{Tree};
ghost use Rattle.loft_history.specs.Legal.{IsLegal, HasNoCallers};
ghost use Rattle.loft_soundness.specs.WellFormed.{IsPlacedTree};
ghost use Rattle.loft_locks.specs.Locks.{Lock, Leaves, BodyPairs, IsExpanded};
ghost use Rattle.loft_locks.specs.Outline.{Outline, outline, pair_fault, leave_fault};
ghost use Rattle.loft_lock_forms.specs.Marks.{Mark};
ghost use Rattle.loft_locks.specs.Marked.{BodyKeeps, BodyMarked};
ghost use Rattle.loft_locks.specs.Rules.{Paired};
ghost use Rattle.loft_locks.specs.LocksHold.{LockKept};
ghost use Rattle.loft_locks.specs.Example.{lock, example, broken, shared_after, inside_after_instants};

/// Where no statement of a body breaks a rule of pairs and none leaves a pair, the pairs of each lock
/// stand in it as an expanded program asks, where its `run`s of the modules of the lock are those
/// that stand in place of the lock's forms.
pub fn checked_pairs_stand()
    ensures { (p : Resolved) (l : Lock) (name : List ℕ) (marks : List Mark)
        → (away : ModuleId → Bool) → ((m : ModuleId) → Leaves p m → away m ≡ true)
        → (b : NamedStatements) → pair_fault [] [] (outline marks away b) ≡ None
        → leave_fault [] [] (outline marks away b) ≡ None
        → BodyKeeps l (body_of b) → BodyMarked l name marks b
        → BodyPairs p l false false (body_of b) }
{}

/// The example is an expanded program. In it the one that has the lock is inside after its first
/// instant and the other waits, the other is inside after the second, and nobody after the third. In
/// a program whose lock doesn't wait both are inside.
pub fn locks_are_taken()
    ensures expanded { IsExpanded example lock }
    ensures first { (shared_after example 1 ≡ pos 1 ∷ []) × (inside_after_instants example 1 ≡ 1) }
    ensures second { (shared_after example 2 ≡ pos 1 ∷ []) × (inside_after_instants example 2 ≡ 1) }
    ensures third { (shared_after example 3 ≡ pos 0 ∷ []) × (inside_after_instants example 3 ≡ 0) }
    ensures both { inside_after_instants broken 1 ≡ 2 }
{}

/// In each legal history without callers of a program in which a lock was expanded, between instants
/// and in them after each run of a thread: the lock's variable is 0 and no thread is inside, or it is
/// 1 and at most one thread that is linked where the lock is, is inside. Nobody is inside elsewhere:
/// no thread that another scheduler links, that waits, was sent or taken, is a job, or is in a
/// worker's hand. A lock whose thread was stopped or ended inside stays lost.
pub fn locks_are_kept()
    ensures { (p : Resolved) (l : Lock) → IsPlacedTree p → IsExpanded p l
        → (o : RunOptions) (es : List Entry) → IsLegal (Tree p) o es → HasNoCallers p.heads es
        → LockKept p l o es }
{}

/// A body has no fault of pairs exactly where the four rules hold in it and in the bodies in it.
pub fn rules_are_checked()
    ensures { (begun : List (List ℕ)) (b : Outline)
        → (pair_fault begun [] b ≡ None) ↔ Paired begun b }
{}
