//! The answers that are no success.

ghost use Rattle.std.specs.Prelude.{◌≡◌};
ghost use Rattle.loft_base.specs.declared.errors.FileError.TheVariants.{Failed as failed, NoMemory as no_memory};

use std::alloc::{AllocError, AllocFailed};

/// Out of memory for what the call had to make.
#[derive(Clone, Copy, Debug, PartialEq, Eq)]
pub struct NoMemory;

/// The divisor is 0.
#[derive(Clone, Copy, Debug, PartialEq, Eq)]
pub struct Div;

/// Reading or writing failed outside; the count of faults of that outside rose.
#[derive(Clone, Copy, Debug, PartialEq, Eq)]
pub struct Failed;

/// Why a whole file wasn't read.
#[derive(Clone, Copy, Debug, PartialEq, Eq)]
pub enum FileError {
    /// A part of it failed; the count of faults rose.
    Failed,
    /// It is longer than the limit.
    TooLong,
    /// Out of memory for its bytes.
    NoMemory,
}

impl From<AllocError> for NoMemory {
    fn from(_error: AllocError) -> NoMemory {
        NoMemory
    }
}

impl<T: Drop> From<AllocFailed<T>> for NoMemory {
    fn from(_error: AllocFailed<T>) -> NoMemory {
        NoMemory
    }
}

impl From<Failed> for FileError {
    ghost from_gives = { λ _ e. e ≡ failed };

    fn from(_error: Failed) -> FileError {
        FileError::Failed
    }
}

impl From<NoMemory> for FileError {
    ghost from_gives = { λ _ e. e ≡ no_memory };

    fn from(_error: NoMemory) -> FileError {
        FileError::NoMemory
    }
}

impl From<AllocError> for FileError {
    ghost from_gives = { λ _ e. e ≡ no_memory };

    fn from(_error: AllocError) -> FileError {
        FileError::NoMemory
    }
}
