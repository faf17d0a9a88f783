//! Why the names of a program are refused.

ghost use Rattle.std.specs.Prelude.{◌≡◌};
ghost use Rattle.loft_scopes.specs.declared.error.NameError.TheVariants.{NoMemory as no_memory};

use loft_base::NoMemory;

/// Why the names of a program are refused (docs/LANGUAGE.md, "Names" and "Kinds"). An offset is the number of bytes
/// before it in the text.
#[derive(Clone, Copy, Debug, PartialEq, Eq)]
pub enum NameError {
    /// The program declares no scheduler.
    NoScheduler,
    /// No declaration of the name at this offset can be seen from there.
    Unknown(u32),
    /// The name at the offset `at` is declared again: its first declaration is at the offset `first`.
    Twice { at: u32, first: u32 },
    /// The call of the module whose name stands at this offset has too few or too many arguments.
    Arity(u32),
    /// What stands at this offset is of another kind, or names something of another sort, than is needed.
    Kind(u32),
    /// Out of memory.
    NoMemory,
}

impl NameError {
    ghost use Rattle.loft_scopes.specs.Faults.{place_of};

    /// The offset at which it stands; 0 where it stands nowhere.
    pub fn offset(self) -> u32
        ensures { result ≡ place_of self }
    {
        match self {
            NameError::NoScheduler | NameError::NoMemory => 0,
            NameError::Unknown(at)
            | NameError::Twice { at, .. }
            | NameError::Arity(at)
            | NameError::Kind(at) => at,
        }
    }
}

impl From<NoMemory> for NameError {
    ghost from_gives = { λ _ e. e ≡ no_memory };

    fn from(_error: NoMemory) -> NameError {
        NameError::NoMemory
    }
}
