//! Files that all hold the same bytes, and may fail while they are read.

use std::alloc::{AllocError, Allocator, Global};
use std::cell::RefCell;
use std::fs::{Metadata, OpenFile, OpenOptions};
use std::io::{Error, ErrorKind, Read, Seek, SeekFrom, Write};
use std::{io, rt};

/// The bytes of each file.
pub const BYTES: &[u8] = b"some bytes";

/// Each file holds `BYTES`, gives at most `at_once` in one read, and fails at its read `fails_at`,
/// counted from 1.
#[derive(Drop)]
pub struct FakeFiles {
    at_once: usize,
    fails_at: u64,
    opened: RefCell<Vec<u8>>,
}

/// An open file.
#[derive(Drop)]
pub struct FakeFile {
    offset: usize,
    at_once: usize,
    fails_at: u64,
    reads: u64,
}

impl FakeFiles {
    pub fn new(alloc: Global, at_once: usize, fails_at: u64) -> FakeFiles {
        FakeFiles {
            at_once,
            fails_at,
            opened: RefCell::new(Vec::new(alloc)),
        }
    }

    /// Whether these are the names of the files that were opened, in order, with a `|` after each.
    pub fn has_opened(self, names: &[u8]) -> bool {
        self.opened.into_inner().as_slice() == names
    }
}

/// Appends a name with a `|` after it.
fn append(names: &mut Vec<u8>, name: &str) -> Result<(), AllocError> {
    names.extend_from_slice(name.as_bytes())?;
    names.push(b'|')?;
    Ok(())
}

fn unsupported<T>() -> io::Result<T> {
    Err(Error::from(ErrorKind::Unsupported))
}

impl rt::Files for FakeFiles {
    type File = FakeFile;

    type Dir = FakeFile;

    fn open_file(&self, _how: &OpenOptions, path: &str) -> io::Result<FakeFile> {
        let mut opened = self.opened.try_borrow_mut().map_err(|_| ErrorKind::Other)?;
        append(&mut opened, path)?;
        Ok(FakeFile {
            offset: 0,
            at_once: self.at_once,
            fails_at: self.fails_at,
            reads: 0,
        })
    }

    fn open_dir(&self, _path: &str) -> io::Result<FakeFile> {
        unsupported()
    }

    fn metadata(&self, _path: &str) -> io::Result<Metadata> {
        unsupported()
    }

    fn symlink_metadata(&self, _path: &str) -> io::Result<Metadata> {
        unsupported()
    }

    fn copy(&self, _from: &str, _to: &str) -> io::Result<u64> {
        unsupported()
    }

    fn rename(&self, _from: &str, _to: &str) -> io::Result<()> {
        unsupported()
    }

    fn remove_file(&self, _path: &str) -> io::Result<()> {
        unsupported()
    }

    fn create_dir(&self, _path: &str) -> io::Result<()> {
        unsupported()
    }

    fn remove_dir(&self, _path: &str) -> io::Result<()> {
        unsupported()
    }

    fn remove_dir_all<B: Allocator>(&self, _alloc: B, _path: &str) -> io::Result<()> {
        unsupported()
    }
}

impl Read for FakeFile {
    fn read(&mut self, buf: &mut [u8]) -> io::Result<usize> {
        self.reads = self.reads.saturating_add(1);
        if self.reads == self.fails_at {
            return Err(Error::from(ErrorKind::Other));
        }
        let most = buf.len().min(self.at_once);
        let Some(mut rest) = BYTES.get(self.offset..) else {
            return Ok(0);
        };
        let count = rest.read(&mut buf[..most])?;
        self.offset = self.offset.saturating_add(count);
        Ok(count)
    }
}

impl Write for FakeFile {
    fn write(&mut self, _buf: &[u8]) -> io::Result<usize> {
        Err(Error::from(ErrorKind::Unsupported))
    }

    fn flush(&mut self) -> io::Result<()> {
        unsupported()
    }
}

impl Seek for FakeFile {
    fn seek(&mut self, _to: SeekFrom) -> io::Result<u64> {
        unsupported()
    }
}

impl OpenFile for FakeFile {
    fn metadata(&self) -> io::Result<Metadata> {
        unsupported()
    }

    fn set_len(&self, _size: u64) -> io::Result<()> {
        unsupported()
    }

    fn sync_all(&self) -> io::Result<()> {
        unsupported()
    }

    fn sync_data(&self) -> io::Result<()> {
        unsupported()
    }
}
