//! Why a text with locks is refused.

use loft_base::{ModuleId, NoMemory};
use loft_lex::LexError;
use loft_parse::ParseError;
use loft_place::PlaceError;
use loft_scopes::NameError;
use loft_tree::Name;
use std::alloc::AllocError;

/// Why a text with locks stands for no program (docs/LOCKS.md, "What is refused"): the first of these that applies. An offset
/// is one in the text for `Lex`, `LongLock` and `Reserved`, and one in the text that is read in its place for `Parse`, `Names`
/// and `Place`.
#[derive(Drop)]
pub enum MutexError {
    /// The text, or the one that is read in its place, has more than 4 MiB.
    TooLong,
    /// The first fault of the text's tokens.
    Lex(LexError),
    /// The first name of a lock that leaves no room for what is put before it stands here.
    LongLock(u32),
    /// The first name that is one of those that the form of a lock declares stands here.
    Reserved(u32),
    /// The fault of the text that is read.
    Parse(ParseError),
    /// The fault of its names and kinds.
    Names(NameError),
    /// The fault of its links.
    Place(PlaceError),
    /// The first module that breaks a rule of pairs, and the lock of its first statement that does.
    Pair { module: ModuleId, lock: Name },
    /// The first module that leaves a pair, and the lock of the outermost pair around its first statement that does.
    Leaves { module: ModuleId, lock: Name },
    /// Out of memory, whatever the text is.
    NoMemory,
}

impl From<NoMemory> for MutexError {
    ghost use Rattle.std.specs.Prelude.{◌≡◌};
    ghost use Rattle.loft_mutex.specs.declared.error.MutexError.TheVariants.{NoMemory as no_memory};

    ghost from_gives = { λ _ e. e ≡ no_memory };

    fn from(_error: NoMemory) -> MutexError {
        MutexError::NoMemory
    }
}

impl From<AllocError> for MutexError {
    ghost use Rattle.std.specs.Prelude.{◌≡◌};
    ghost use Rattle.loft_mutex.specs.declared.error.MutexError.TheVariants.{NoMemory as no_memory};

    ghost from_gives = { λ _ e. e ≡ no_memory };

    fn from(_error: AllocError) -> MutexError {
        MutexError::NoMemory
    }
}

impl From<LexError> for MutexError {
    ghost use Rattle.std.specs.Prelude.{◌≡◌};
    ghost use Rattle.loft_mutex.specs.Stages.{of_lex};

    ghost from_gives = { λ error e. e ≡ of_lex error };

    fn from(error: LexError) -> MutexError {
        match error {
            LexError::NoMemory => MutexError::NoMemory,
            fault => MutexError::Lex(fault),
        }
    }
}

impl From<ParseError> for MutexError {
    ghost use Rattle.std.specs.Prelude.{◌≡◌};
    ghost use Rattle.loft_mutex.specs.Stages.{of_parse};

    ghost from_gives = { λ error e. e ≡ of_parse error };

    fn from(error: ParseError) -> MutexError {
        match error {
            ParseError::NoMemory => MutexError::NoMemory,
            fault => MutexError::Parse(fault),
        }
    }
}

impl From<NameError> for MutexError {
    ghost use Rattle.std.specs.Prelude.{◌≡◌};
    ghost use Rattle.loft_mutex.specs.Stages.{of_names};

    ghost from_gives = { λ error e. e ≡ of_names error };

    fn from(error: NameError) -> MutexError {
        match error {
            NameError::NoMemory => MutexError::NoMemory,
            fault => MutexError::Names(fault),
        }
    }
}
