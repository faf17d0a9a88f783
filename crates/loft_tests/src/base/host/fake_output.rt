//! An output that takes few bytes at once.

use std::alloc::Global;
use std::cell::{Cell, RefCell};
use std::fmt::Display;
use std::io;
use std::io::{Error, ErrorKind};

/// Takes at most `at_once` bytes in one write, and fails from its write `fails_at` on, counted from
/// 1; 0 is never.
#[derive(Drop)]
pub struct FakeOutput {
    bytes: RefCell<Vec<u8>>,
    at_once: usize,
    fails_at: u64,
    writes: Cell<u64>,
}

impl FakeOutput {
    pub fn new(alloc: Global, at_once: usize, fails_at: u64) -> FakeOutput {
        FakeOutput {
            bytes: RefCell::new(Vec::new(alloc)),
            at_once,
            fails_at,
            writes: Cell::new(0),
        }
    }

    /// Whether these are all bytes taken.
    pub fn has_taken(self, bytes: &[u8]) -> bool {
        self.bytes.into_inner().as_slice() == bytes
    }

    /// How many bytes it has taken.
    pub fn into_len(self) -> usize {
        self.bytes.into_inner().len()
    }
}

impl Print for FakeOutput {
    fn print<D: Display + Drop>(&self, _value: D) -> io::Result<()> {
        Err(Error::from(ErrorKind::Unsupported))
    }

    fn println<D: Display + Drop>(&self, _value: D) -> io::Result<()> {
        Err(Error::from(ErrorKind::Unsupported))
    }

    fn write_all(&self, _bytes: &[u8]) -> io::Result<()> {
        Err(Error::from(ErrorKind::Unsupported))
    }

    fn write_some(&self, bytes: &[u8]) -> io::Result<usize> {
        let writes = self.writes.get().saturating_add(1);
        self.writes.set(writes);
        if self.fails_at != 0 && writes >= self.fails_at {
            return Err(Error::from(ErrorKind::BrokenPipe));
        }
        let count = bytes.len().min(self.at_once);
        let mut taken = self.bytes.try_borrow_mut().map_err(|_| ErrorKind::Other)?;
        taken.extend_from_slice(&bytes[..count])?;
        Ok(count)
    }
}
