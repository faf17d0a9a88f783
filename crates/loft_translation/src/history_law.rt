//! The law that a program and its code have the same histories. It is what the contract of an empty
//! function says.

ghost use Rattle.std.specs.Prelude.{◌≡◌, ◌↔◌, List};
ghost use Rattle.loft_tree.specs.NamedTree.{NamedProgram};
ghost use Rattle.loft_tree.specs.NamedFits.{NamedFits};
ghost use Rattle.loft_tree.specs.Resolved.{Resolved, resolved_of};
ghost use Rattle.loft_place.specs.Links.{IsPlaced};
ghost use Rattle.loft_code.specs.Operations.{Automata};
ghost use Rattle.loft_orders.specs.declared.entry.Entry.{Entry};
ghost use Rattle.loft_base.specs.declared.options.RunOptions.{RunOptions};
ghost use Rattle.loft_sense.specs.Machine.{Tree, Code};
ghost use Rattle.loft_history.specs.History.{Choice, hist, HasEnded};
ghost use Rattle.loft_history.specs.Legal.{IsLegal};
ghost use Rattle.loft_history.specs.Report.{report};
ghost use Rattle.loft_soundness.specs.Alike.{RunsAlike};
ghost use Rattle.loft_translation.specs.Compiled.{compiled};
ghost use Rattle.loft_translation.specs.Implements.{Implements};

/// Code that implements a program runs alike (`runs`). So it is with the code of each placed
/// program (`alike`), and nothing that is told of a run tells whether the program or its code was
/// run: the same choices make the same history, or the same choice is the first that isn't allowed,
/// the same histories are legal, they have ended at the same entry, and their reports are the same
/// text.
pub fn compiled_code_has_the_same_histories()
    ensures runs { (c : Automata) (p : Resolved) → Implements c p → RunsAlike (Tree p) (Code c) }
    ensures alike { (n : NamedProgram) → NamedFits n → IsPlaced n
        → let p = resolved_of n in RunsAlike (Tree p) (Code (compiled p)) }
    ensures histories { (n : NamedProgram) → NamedFits n → IsPlaced n
        → let p = resolved_of n in
        (o : RunOptions) (choices : List Choice)
        → hist (Tree p) o choices ≡ hist (Code (compiled p)) o choices }
    ensures legal { (n : NamedProgram) → NamedFits n → IsPlaced n
        → let p = resolved_of n in
        (o : RunOptions) (es : List Entry)
        → IsLegal (Tree p) o es ↔ IsLegal (Code (compiled p)) o es }
    ensures ended { (n : NamedProgram) → NamedFits n → IsPlaced n
        → let p = resolved_of n in
        (o : RunOptions) (es : List Entry) → IsLegal (Tree p) o es
        → HasEnded (Tree p) o es ↔ HasEnded (Code (compiled p)) o es }
    ensures reports { (n : NamedProgram) → NamedFits n → IsPlaced n
        → let p = resolved_of n in
        (o : RunOptions) (es : List Entry) → IsLegal (Tree p) o es
        → report (Tree p) o es ≡ report (Code (compiled p)) o es }
{}
