//! Why a reader gives up.

ghost use Rattle.std.specs.Prelude.{◌≡◌};
ghost use Rattle.loft_form.specs.declared.stop.Stop.TheVariants.{NoMemory};

use crate::fault::Fault;
use std::alloc::{AllocError, AllocFailed};

/// Why a reader of a form gives up.
#[derive(Drop)]
pub enum Stop {
    /// There was no memory for what was read.
    NoMemory,
    /// The symbols stop to be of the form.
    Fault(Fault),
}

impl From<AllocError> for Stop {
    ghost from_gives = { λ _ e. e ≡ NoMemory };

    fn from(_e: AllocError) -> Stop {
        Stop::NoMemory
    }
}

impl<T: Drop> From<AllocFailed<T>> for Stop {
    ghost from_gives = { λ _ e. e ≡ NoMemory };

    fn from(_e: AllocFailed<T>) -> Stop {
        Stop::NoMemory
    }
}
