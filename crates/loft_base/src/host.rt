//! The outside over the host: real files and standard output. Of contents nothing is known.

ghost use Rattle.std.specs.Prelude.{◌≡◌, ◌≢◌, ◌≤◌, ◌<◌, None, true, [], length, IfOk, OnOk, OnErr};
ghost use Rattle.std.specs.Io.Buffered.{writer_buffer};
ghost use Rattle.loft_base.specs.Outside.{Rose};
ghost use Rattle.loft_base.specs.Streams.{ReadsOn};

use crate::errors::{Failed, NoMemory};
use crate::outside::{Files, Sink};
use crate::streams::{read_some, write_whole};
use std::alloc::Global;
use std::io::{BufWriter, Printer, Read, Write};
use std::{fs, io, rt};

/// Files of the host. Every name may be asked, as a path. A part from offset 0 opens the file of its
/// name; a later part goes on in the file that was opened last.
#[derive(Drop)]
pub struct HostFiles<'a, R: rt::Files> {
    rt: &'a R,
    file: Option<R::File>,
    faults: u64,
    place: u64,
}

impl<'a, R: rt::Files> HostFiles<'a, R> {
    /// The files that a runtime reaches; none is open.
    pub fn new(rt: &'a R) -> Self
        ensures no_fault { ⟦<HostFiles<'a, R> as Files>⟧.faults result ≡ 0 }
        ensures at_start { ⟦<HostFiles<'a, R> as Files>⟧.place result ≡ 0 }
    {
        HostFiles {
            rt,
            file: None,
            faults: 0,
            place: 0,
        }
    }

    /// Opens the file of the name where the part begins at its start, and reads on in the open
    /// file.
    fn read_part(&mut self, name: &str, from: u64, into: &mut [u8]) -> Result<usize, Failed>
        ensures count { IfOk result (λ k. k ≤ length into.old) }
        ensures reads_on { from ≢ 0 →
            ReadsOn ⟦<R::File as Read>⟧.remaining self.old.file self.new.file result into.new }
        ensures same_faults { self.new.faults ≡ self.old.faults }
    {
        if from == 0 {
            self.file = Some(fs::open(self.rt, name).map_err(|_| Failed)?);
        }
        read_on(&mut self.file, into)
    }
}

/// Reads some bytes of the open file. `Failed` comes where none is open, or the read failed.
fn read_on<F: Read>(file: &mut Option<F>, into: &mut [u8]) -> Result<usize, Failed>
    ensures count { IfOk result (λ k. k ≤ length into.old) }
    ensures reads_on { ReadsOn F.remaining file.old file.new result into.new }
{
    match file {
        Some(file) => read_some(file, into),
        None => Err(Failed),
    }
}

impl<R: rt::Files> Files for HostFiles<'_, R> {
    ghost contents = { λ _ _. None };

    ghost faults = { λ files. files.faults };

    ghost may_ask = { λ _ _. true };

    ghost place = { λ files. files.place };

    fn part(&mut self, name: &str, from: u64, into: &mut [u8]) -> Result<usize, Failed> {
        let read = self.read_part(name, from, into);
        match read {
            Ok(count) => self.place = from + count as u64,
            Err(Failed) => {
                self.faults = self.faults.saturating_add(1);
                self.place = 0;
            }
        }
        read
    }
}

/// How many bytes are gathered before they go out.
const GATHERED: usize = 1 << 16;

/// The standard output of a runtime. Pieces are gathered, and go out whole, however little the
/// output takes at once: where many have been gathered, and by `finish`.
#[derive(Drop)]
pub struct HostSink<'a, R: Print> {
    output: BufWriter<Printer<'a, R>>,
    faults: u64,
}

impl<'a, R: Print> HostSink<'a, R> {
    /// The standard output, with nothing written yet. `NoMemory` comes where it is out of memory
    /// for what is gathered; no later call takes memory.
    pub fn new(alloc: Global, rt: &'a R) -> Result<Self, NoMemory>
        ensures { IfOk result (λ sink. ⟦<HostSink<'a, R> as Sink>⟧.faults sink ≡ 0) }
    {
        let output = BufWriter::with_capacity(alloc, GATHERED, io::writer(rt));
        match output {
            Ok(output) => Ok(HostSink { output, faults: 0 }),
            Err(_) => Err(NoMemory),
        }
    }

    /// Writes what is gathered. `Failed` comes only where the count of faults rose.
    pub fn finish(&mut self) -> Result<(), Failed>
        ensures cause { OnErr result (Rose self.old.faults self.new.faults) }
        ensures never_falls { self.old.faults ≤ self.new.faults }
        ensures empty { OnOk result (writer_buffer self.new.output ≡ []) }
    {
        let flushed = self.output.flush().map_err(|_| Failed);
        self.counted(flushed)
    }

    /// Counts a fault where a write failed.
    fn counted(&mut self, written: Result<(), Failed>) -> Result<(), Failed>
        ensures same { result ≡ written }
        ensures output { self.new.output ≡ self.old.output }
        ensures cause { OnErr result (Rose self.old.faults self.new.faults) }
        ensures count { OnOk result (self.new.faults ≡ self.old.faults) }
        ensures never_falls { self.old.faults ≤ self.new.faults }
    {
        if written.is_err() {
            self.faults = self.faults.saturating_add(1);
        }
        written
    }
}

impl<R: Print> Sink for HostSink<'_, R> {
    ghost written = { λ _. None };

    ghost faults = { λ sink. sink.faults };

    fn put(&mut self, bytes: &[u8]) -> Result<(), Failed> {
        let written = write_whole(&mut self.output, bytes);
        self.counted(written)
    }
}
