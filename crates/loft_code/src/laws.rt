//! What holds of code by its definitions.

ghost use Rattle.std.specs.Prelude.{◌≡◌, ◌⊎◌, IsTrue, ◌<◌, ◌≤◌, ◌+◌, ℕ, List, Some, slice_get};
ghost use Rattle.loft_base.specs.declared.ids.ModuleId.{ModuleId};
ghost use Rattle.loft_tree.specs.declared.heads.Signature.{Signature};
ghost use Rattle.loft_code.specs.declared.error.CodeError.{CodeError};
ghost use Rattle.loft_code.specs.Operations.{Line, Automata, Turn, Jump, End, stop_of};
ghost use Rattle.loft_code.specs.Valid.{test_in, Valid, CodeFault};
ghost use Rattle.loft_code.specs.Leads.{IsModule, Passes, LeadsOn, BeginsWell, EndsWell};

/// Each code has one answer: it is valid, or it has a fault, and never both; and there is one first fault.
pub fn code_is_decided()
    ensures some { (c : Automata) → Valid c ⊎ ((e : CodeError) × CodeFault c e) }
    ensures valid { (c : Automata) → Valid c → (e : CodeError) → ¬ CodeFault c e }
    ensures one_fault { (c : Automata) (d e : CodeError) → CodeFault c d → CodeFault c e → d ≡ e }
{}

/// What runs by valid code finds what it asks for. Each operation of a module passes all tests, and each one at which it
/// goes on is there, at the place where it leaves the thread and with the depth that it leaves. A module begins and ends in
/// its place and without counts, a `turn` has a count, a `jump` goes to a later operation or to a `branch` or `turn`. Stops
/// have small numbers, and no two have the same.
pub fn valid_code_leads_on()
    ensures passes { (c : Automata) → Valid c
        → (m : ModuleId) (signature : Signature) (lines : List Line) → IsModule c m signature lines
        → (p : ℕ) (l : Line) → slice_get lines p ≡ Some l → Passes c.heads signature lines p l }
    ensures leads { (c : Automata) → Valid c
        → (m : ModuleId) (signature : Signature) (lines : List Line) → IsModule c m signature lines
        → (p : ℕ) (l : Line) → slice_get lines p ≡ Some l → LeadsOn c.heads lines p l }
    ensures begins { (c : Automata) → Valid c
        → (m : ModuleId) (signature : Signature) (lines : List Line) → IsModule c m signature lines
        → BeginsWell signature lines }
    ensures ends { (c : Automata) → Valid c
        → (m : ModuleId) (signature : Signature) (lines : List Line) → IsModule c m signature lines
        → (p : ℕ) (l : Line) → slice_get lines p ≡ Some l → l.operation ≡ End → EndsWell signature l }
    ensures turns { (c : Automata) → Valid c
        → (m : ModuleId) (signature : Signature) (lines : List Line) → IsModule c m signature lines
        → (p t : ℕ) (l : Line) → slice_get lines p ≡ Some l → l.operation ≡ Turn t → 1 ≤ l.depth }
    ensures jumps { (c : Automata) → Valid c
        → (m : ModuleId) (signature : Signature) (lines : List Line) → IsModule c m signature lines
        → (p t : ℕ) (l : Line) → slice_get lines p ≡ Some l → l.operation ≡ Jump t
        → (p < t) ⊎ IsTrue (test_in (slice_get lines t)) }
    ensures stops { (c : Automata) → Valid c
        → (m : ModuleId) (signature : Signature) (lines : List Line) → IsModule c m signature lines
        → (p k : ℕ) (l : Line) → slice_get lines p ≡ Some l → stop_of l.operation ≡ Some k
        → (1 ≤ k) × (k ≤ p + 1) }
    ensures one_stop { (c : Automata) → Valid c
        → (m : ModuleId) (signature : Signature) (lines : List Line) → IsModule c m signature lines
        → (p q k : ℕ) (l n : Line) → slice_get lines p ≡ Some l → slice_get lines q ≡ Some n
        → stop_of l.operation ≡ Some k → stop_of n.operation ≡ Some k → p ≡ q }
{}
