//! Laws of rewritten texts. Each is what the contract of an empty function says.

ghost use Rattle.std.specs.Prelude.{◌≡◌, ℕ, List, Ok};
ghost use Rattle.loft_tree.specs.Fits.{Each};
ghost use Rattle.loft_tree.specs.Source.{Source};
ghost use Rattle.loft_lex.specs.declared.token.Token.{Token};
ghost use Rattle.loft_lex.specs.Cut.{Cut};
ghost use Rattle.loft_grammar.specs.Texts.{Reads};
ghost use Rattle.loft_scopes.specs.Faults.{NamesFit};
ghost use Rattle.loft_lock_sources.specs.SourceLocks.{HasLock};
ghost use Rattle.loft_lock_forms.specs.Rewriting.{all_say, written, rewritten, forms, IsShort, Says};
ghost use Rattle.loft_lock_rewriting.specs.Locked.{lock_names, IsDeclared};
ghost use Rattle.loft_lock_forms.specs.Marks.{text_marks};
ghost use Rattle.loft_lock_rewriting.specs.Told.{IsTold};
ghost use Rattle.loft_lock_rewriting.specs.Example.{expanded, marked, source, plain, plain_marks, crowded, crowded_plain};

/// The rewritten text of a text without lexical fault has none, and its tokens say what those of the
/// text say, with each form replaced.
pub fn rewritten_texts_are_cut()
    ensures { (text : List ℕ) (ts : List Token) → Cut text (Ok ts) → Each IsShort (forms 0 (all_say text ts))
        → Says (written text 0 0 ts) (rewritten 0 (all_say text ts)) }
{}

/// The program that the rewritten text is has the declarations of each lock that the text declares,
/// where its names have no fault and the text has no name that the forms of the lock write.
pub fn texts_have_locks()
    ensures { (text : List ℕ) (ts : List Token) (s : Source) (l a : List ℕ) → Cut text (Ok ts)
        → Each IsShort (forms 0 (all_say text ts)) → IsDeclared (all_say text ts) l a
        → Reads (written text 0 0 ts) s → NamesFit s → HasLock s (lock_names l a) }
{}

/// In the program that the rewritten text is, the `run`s of the modules of a declared lock are those
/// that stand in place of its forms.
pub fn marks_tell_forms()
    ensures { (text : List ℕ) (ts : List Token) (s : Source) (l a : List ℕ) → Cut text (Ok ts)
        → Each IsShort (forms 0 (all_say text ts)) → IsDeclared (all_say text ts) l a
        → Reads (written text 0 0 ts) s → NamesFit s → IsTold s (text_marks text ts) l a }
{}

/// What is written for two texts, and where the `run`s of the first stand that replace forms.
pub fn forms_are_replaced()
    ensures example { expanded source ≡ plain }
    ensures crowded { expanded crowded ≡ crowded_plain }
    ensures marks { marked source ≡ plain_marks }
{}
