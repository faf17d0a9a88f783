//! A walk over a file.

ghost use Rattle.std.specs.Prelude.{◌≡◌, ◌<◌, ◌≤◌, length, IfOk};

use crate::errors::{Failed, NoMemory};
use crate::outside::Files;
use std::alloc::{AllocError, Global};

/// A walk over a file, part by part from its beginning. It keeps the last part alone.
#[derive(Drop)]
pub struct FileWalk {
    /// The last part, and what is left of earlier ones after it.
    buffer: Vec<u8>,
    /// How many bytes the last part has.
    count: usize,
    /// How many bytes all parts have so far.
    at: u64,
    ghost fits: { count ≤ length buffer.items },
    ghost room: { 0 < length buffer.items },
}

/// `count` zero bytes.
fn zeros(alloc: Global, count: usize) -> Result<Vec<u8>, AllocError>
    ensures { IfOk result (λ bytes. length bytes.items ≡ count) }
{
    vec![in alloc; 0; count]
}

impl FileWalk {
    ghost use Rattle.std.specs.Prelude.{◌+◌, ◌^◌, [], false, true, Ok, IsTrue, OnOk, OnErr, IfSome, IsOk, IsErr};
    ghost use Rattle.loft_base.specs.Outside.{Rose, IsNextPlace};
    ghost use Rattle.loft_base.specs.Walk.{count_of, part_of, room_of, IsWithin, Grows};

    /// A walk that gave nothing yet, in parts of at most `most` bytes.
    ///
    /// # Errors
    ///
    /// Out of memory for a part.
    pub fn new(alloc: Global, most: usize) -> Result<FileWalk, NoMemory>
        requires { 0 < most }
        ensures nothing { IfOk result (λ walk. count_of walk ≡ 0) }
        ensures no_part { IfOk result (λ walk. part_of walk ≡ []) }
        ensures room { IfOk result (λ walk. room_of walk ≡ most) }
    {
        let buffer = zeros(alloc, most)?;
        Ok(FileWalk {
            buffer,
            count: 0,
            at: 0,
        })
    }

    /// How many bytes were given so far.
    pub fn count(&self) -> u64
        ensures { result ≡ count_of self.now }
    {
        self.at
    }

    /// The last part.
    pub fn part(&self) -> &[u8]
        ensures { result.now ≡ part_of self.now }
    {
        &self.buffer[..self.count]
    }

    /// Reads the next part, which has at least one byte; false at the file's end. Each call is for the same file, and
    /// the files are asked for no other in between.
    ///
    /// # Errors
    ///
    /// The part failed: the count of faults rose, and what was given stays as it was.
    pub fn advance<F: Files>(&mut self, files: &mut F, name: &str) -> Result<bool, Failed>
        requires asked { IsTrue (F.may_ask files.old name.now) }
        requires next { IsNextPlace (count_of self.old) (F.place files.old) }
        requires below { count_of self.old + room_of self.old < 2 ^ 63 }

        // Where the file's contents are known, what was given are its first bytes, and at the end all of them.
        ensures grows { OnOk result (IfSome (F.contents files.old name.now) (λ file. IsWithin self.old file → Grows file self.old self.new)) }
        ensures end { result ≡ Ok false → IfSome (F.contents files.old name.now) (λ file. length file ≤ count_of self.old) }
        ensures counted { OnOk result (count_of self.new ≡ count_of self.old + length (part_of self.new)) }
        ensures some { result ≡ Ok true → 0 < length (part_of self.new) }
        ensures none { result ≡ Ok false → part_of self.new ≡ [] }
        ensures kept { OnErr result (count_of self.new ≡ count_of self.old) }
        ensures same_room { room_of self.new ≡ room_of self.old }

        ensures ended { OnOk result (F.place files.new ≡ count_of self.new) }
        ensures cause { OnErr result (Rose (F.faults files.old) (F.faults files.new)) }
        ensures restarted { OnErr result (F.place files.new ≡ 0) }
        ensures never_falls { F.faults files.old ≤ F.faults files.new }

        ensures sure { IsTrue (F.never_fails files.old name.now) → IsOk result }
        ensures no_fault { IsTrue (F.never_fails files.old name.now) → F.faults files.new ≡ F.faults files.old }
        ensures refused { IsTrue (F.always_fails files.old name.now) → IsErr result }

        ensures same_contents { F.contents files.new ≡ F.contents files.old }
        ensures same_names { F.may_ask files.new ≡ F.may_ask files.old }
        ensures same_sure { F.never_fails files.new ≡ F.never_fails files.old }
        ensures same_refused { F.always_fails files.new ≡ F.always_fails files.old }
    {
        match files.part(name, self.at, self.buffer.as_mut_slice()) {
            Err(e) => Err(e),
            Ok(count) => {
                self.count = count;
                self.at += count as u64;
                Ok(count > 0)
            }
        }
    }
}
