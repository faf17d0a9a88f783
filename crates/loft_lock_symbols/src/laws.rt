//! Laws of the symbols of locks. Each is what the contract of an empty function says.

ghost use Rattle.std.specs.Prelude.{ℕ, false, List, ◌++◌};
ghost use Rattle.loft_lex.specs.Symbol.{Symbol};
ghost use Rattle.loft_tree.specs.Source.{Source};
ghost use Rattle.loft_grammar.specs.Texts.{SpellsProgram};
ghost use Rattle.loft_lock_sources.specs.SourceLocks.{LockNames, HasLock};
ghost use Rattle.loft_lock_symbols.specs.LockSymbols.{lock_symbols, KeepAway};

/// Where the symbols of a program have those of a lock somewhere, and the others don't name its
/// variable, nor its modules after a dot, the program has the declarations of the lock, and keeps
/// away from its names elsewhere.
pub fn symbols_have_lock()
    ensures { (n : LockNames) (at other : ℕ → ℕ) (front back : List Symbol) (s : Source)
        → SpellsProgram (front ++ lock_symbols n at other back) s
        → KeepAway n false front → KeepAway n false back → HasLock s n }
{}
