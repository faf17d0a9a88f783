//! Why a listing isn't read.

ghost use Rattle.std.specs.Prelude.{◌≡◌};
ghost use Rattle.loft_listing_reader.specs.declared.error.ListError.TheVariants.{NoMemory as no_memory};

use loft_base::NoMemory;

/// Why a listing isn't read (docs/CODE.md, "Listings that are read").
#[derive(Clone, Copy, Debug, PartialEq, Eq)]
pub enum ListError {
    /// The first line that is wrong, or with which no listing goes on, from 1.
    Line(u32),
    /// The text has more than 128 MiB.
    TooLong,
    /// Out of memory.
    NoMemory,
}

impl From<NoMemory> for ListError {
    ghost from_gives = { λ _ e. e ≡ no_memory };

    fn from(_error: NoMemory) -> ListError {
        ListError::NoMemory
    }
}
