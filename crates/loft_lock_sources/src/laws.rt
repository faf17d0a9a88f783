//! Laws of sources with locks. Each is what the contract of an empty function says.

ghost use Rattle.loft_tree.specs.Source.{Source};
ghost use Rattle.loft_scopes.specs.Faults.{NamesFit};
ghost use Rattle.loft_lock_sources.specs.SourceLocks.{LockNames, HasLock, LockStands};

/// A source without faults of names that has the declarations of a lock, which nothing else sets and
/// whose modules nothing else names but in a `run`, is an expanded program with numbers in place of
/// names, where its pairs stand.
pub fn locks_stand()
    ensures { (s : Source) (n : LockNames) → NamesFit s → HasLock s n → LockStands s n }
{}
