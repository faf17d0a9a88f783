//! Laws of expansions. Each is what the contract of an empty function says.

ghost use Rattle.std.specs.Prelude.{◌≡◌, ℕ, List, Some, Result};
ghost use Rattle.loft_lex.specs.Tokens.{tokens};
ghost use Rattle.loft_tree.specs.Fits.{Each};
ghost use Rattle.loft_tree.specs.Source.{Source};
ghost use Rattle.loft_orders.specs.declared.entry.Entry.{Entry};
ghost use Rattle.loft_base.specs.declared.options.RunOptions.{RunOptions};
ghost use Rattle.loft_sense.specs.Machine.{Tree, Code};
ghost use Rattle.loft_base.specs.declared.ids.SchedId.{SchedId};
ghost use Rattle.loft_tree.specs.NamedFits.{IsScheduler};
ghost use Rattle.loft_history.specs.History.{replayed};
ghost use Rattle.loft_history.specs.Legal.{IsLegal, HasNoCallers};
ghost use Rattle.loft_translation.specs.Compiled.{compiled};
ghost use Rattle.loft_lock_rewriting.specs.Told.{program_of};
ghost use Rattle.loft_lock_expansion.specs.Expansion.{IsExpansion};
ghost use Rattle.loft_lock_expansion.specs.Refusals.{Refusal, Comes};
ghost use Rattle.loft_lock_expansion.specs.Kept.{forms_of, FormKept};
ghost use Rattle.loft_lock_expansion.specs.Example.{long_in, reserved_in, own_variable, own_module, long};

/// Each lock that a text declares is kept in each legal history without callers of the program that
/// the text stands for (`tree`), and in each of the program's code (`code`), where each scheduler has
/// the same machine and notes (`machines`).
pub fn expansions_keep_their_locks()
    ensures tree { (text : List ℕ) (s : Source) (e : IsExpansion text s) (o : RunOptions) (es : List Entry)
        → IsLegal (Tree (program_of s)) o es → HasNoCallers (program_of s).heads es
        → Each (FormKept s o es) (forms_of text s e) }
    ensures machines { (text : List ℕ) (s : Source) → IsExpansion text s → (o : RunOptions) (es : List Entry)
        → IsLegal (Code (compiled (program_of s))) o es
        → (a : SchedId) → IsScheduler (program_of s).heads a
        → replayed (Tree (program_of s)) o.limits a es
        ≡ replayed (Code (compiled (program_of s))) o.limits a es }
    ensures code { (text : List ℕ) (s : Source) (e : IsExpansion text s) (o : RunOptions) (es : List Entry)
        → IsLegal (Code (compiled (program_of s))) o es → HasNoCallers (program_of s).heads es
        → Each (FormKept s o es) (forms_of text s e) }
{}

/// A text with locks stands for one program or is refused for one reason (`some`), and never for two
/// or both (`one`).
pub fn texts_come_to_one_answer()
    ensures some { (text : List ℕ) → (a : Result Source Refusal) × Comes text a }
    ensures one { (text : List ℕ) (a b : Result Source Refusal) → Comes text a → Comes text b → a ≡ b }
{}

/// Where three texts have a reserved name or one that is too long: a variable that is a lock's own, a
/// lock with the name of another's module, and a name of 58 bytes.
pub fn names_are_checked()
    ensures variable { reserved_in own_variable (tokens own_variable) ≡ Some 19 }
    ensures module_name { reserved_in own_module (tokens own_module) ≡ Some 29 }
    ensures long { long_in long (tokens long) ≡ Some 24 }
{}
