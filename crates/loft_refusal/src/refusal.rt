//! Why a source, a listing or a text with locks is refused, and what else stops a command.

use loft_base::{Failed, FileError, NoMemory, WriteError};
use loft_code::CodeError;
use loft_listing_reader::ListError;
use loft_mutex::MutexError;
use loft_parse::ParseError;
use loft_place::PlaceError;
use loft_scopes::NameError;
use loft_tree::Names;
use std::alloc::AllocError;

/// Why a source, a listing or a text with locks is refused.
#[derive(Drop)]
pub enum Refusal {
    /// It is the text of no program.
    Text(ParseError),
    /// Its names or kinds aren't correct.
    Names(NameError),
    /// Its links aren't correct; the schedulers' names by their numbers.
    Links {
        fault: PlaceError,
        schedulers: Names,
    },
    /// It is no listing.
    Listing(ListError),
    /// It is a listing of code that isn't valid; the modules' names by their numbers.
    Code {
        fault: CodeError,
        modules: Names,
    },
    /// It is a text with locks that stands for no program; the names of what the fault tells by number: of schedulers with
    /// `Place`, of modules with `Pair` and `Leaves`.
    Locks {
        fault: MutexError,
        names: Names,
    },
}

/// What stops a command before its answer is whole.
#[derive(Drop)]
pub enum Stopped {
    /// What the file has is refused; nothing was written.
    Refused(Refusal),
    /// A file could not be read; nothing was written.
    FileFault,
    /// The answer could not be written; a prefix of it was.
    SinkFault,
    /// Out of memory; a prefix of the answer was written.
    NoMemory,
}

impl From<NoMemory> for Stopped {
    ghost use Rattle.std.specs.Prelude.{◌≡◌};
    ghost use Rattle.loft_refusal.specs.declared.refusal.Stopped.TheVariants.{NoMemory as no_memory};

    ghost from_gives = { λ _ stopped. stopped ≡ no_memory };

    fn from(_error: NoMemory) -> Stopped {
        Stopped::NoMemory
    }
}

impl From<AllocError> for Stopped {
    ghost use Rattle.std.specs.Prelude.{◌≡◌};
    ghost use Rattle.loft_refusal.specs.declared.refusal.Stopped.TheVariants.{NoMemory as no_memory};

    ghost from_gives = { λ _ stopped. stopped ≡ no_memory };

    fn from(_error: AllocError) -> Stopped {
        Stopped::NoMemory
    }
}

impl From<Failed> for Stopped {
    ghost use Rattle.std.specs.Prelude.{◌≡◌};
    ghost use Rattle.loft_refusal.specs.declared.refusal.Stopped.TheVariants.{SinkFault as sink_fault};

    ghost from_gives = { λ _ stopped. stopped ≡ sink_fault };

    /// A piece of the answer could not be written.
    fn from(_error: Failed) -> Stopped {
        Stopped::SinkFault
    }
}

impl From<WriteError> for Stopped {
    ghost use Rattle.std.specs.Prelude.{◌≡◌};
    ghost use Rattle.loft_refusal.specs.Stops.{stop_of_write};

    ghost from_gives = { λ e stopped. stopped ≡ stop_of_write e };

    fn from(error: WriteError) -> Stopped {
        match error {
            WriteError::Sink => Stopped::SinkFault,
            WriteError::NoMemory => Stopped::NoMemory,
        }
    }
}

impl From<FileError> for Stopped {
    ghost use Rattle.std.specs.Prelude.{◌≡◌};
    ghost use Rattle.loft_refusal.specs.Stops.{stop_of_file};

    ghost from_gives = { λ e stopped. stopped ≡ stop_of_file e };

    fn from(error: FileError) -> Stopped {
        match error {
            FileError::Failed => Stopped::FileFault,
            FileError::TooLong => Stopped::Refused(Refusal::Text(ParseError::TooLong)),
            FileError::NoMemory => Stopped::NoMemory,
        }
    }
}

impl From<ParseError> for Stopped {
    ghost use Rattle.std.specs.Prelude.{◌≡◌};
    ghost use Rattle.loft_refusal.specs.Stops.{stop_of_text};

    ghost from_gives = { λ e stopped. stopped ≡ stop_of_text e };

    fn from(error: ParseError) -> Stopped {
        match error {
            ParseError::NoMemory => Stopped::NoMemory,
            fault => Stopped::Refused(Refusal::Text(fault)),
        }
    }
}

impl From<NameError> for Stopped {
    ghost use Rattle.std.specs.Prelude.{◌≡◌};
    ghost use Rattle.loft_refusal.specs.Stops.{stop_of_names};

    ghost from_gives = { λ e stopped. stopped ≡ stop_of_names e };

    fn from(error: NameError) -> Stopped {
        match error {
            NameError::NoMemory => Stopped::NoMemory,
            fault => Stopped::Refused(Refusal::Names(fault)),
        }
    }
}

impl From<ListError> for Stopped {
    ghost use Rattle.std.specs.Prelude.{◌≡◌};
    ghost use Rattle.loft_refusal.specs.Stops.{stop_of_list};

    ghost from_gives = { λ e stopped. stopped ≡ stop_of_list e };

    fn from(error: ListError) -> Stopped {
        match error {
            ListError::NoMemory => Stopped::NoMemory,
            fault => Stopped::Refused(Refusal::Listing(fault)),
        }
    }
}
