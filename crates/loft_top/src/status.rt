//! How the program ends.

ghost use Rattle.std.specs.Prelude.{◌≡◌};
ghost use Rattle.loft_top.specs.Status.{code_of, status_of_write};

use loft_base::WriteError;

/// How the program ends (docs/COMMANDS.md, "Statuses").
#[derive(Clone, Copy, Debug, PartialEq, Eq)]
pub enum Status {
    /// The answer was written.
    Done,
    /// The words are no command.
    Usage,
    /// The source is refused.
    Source,
    /// The report that was given is refused.
    Log,
    /// A file could not be read.
    FileFault,
    /// The answer could not be written.
    SinkFault,
    /// Out of memory.
    NoMemory,
}

impl Status {
    /// The number with which the program ends, 0 to 7.
    pub fn code(self) -> u8
        ensures { result ≡ code_of self }
    {
        match self {
            Status::Done => 0,
            Status::Usage => 2,
            Status::Source => 3,
            Status::Log => 4,
            Status::FileFault => 5,
            Status::SinkFault => 6,
            Status::NoMemory => 7,
        }
    }
}

/// How a command ends whose text was written so, where it ends with this status if the text is whole.
pub(crate) fn status_of(written: Result<(), WriteError>, whole: Status) -> Status
    ensures { result ≡ status_of_write whole written }
{
    match written {
        Ok(()) => whole,
        Err(WriteError::Sink) => Status::SinkFault,
        Err(WriteError::NoMemory) => Status::NoMemory,
    }
}
