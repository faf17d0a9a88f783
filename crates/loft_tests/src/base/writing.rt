//! Writing texts to a sink.

ghost use Rattle.std.specs.Prelude.{◌≡◌, true};
ghost use Rattle.loft_base.specs.Writing.{are_lines};

use loft_base::{Failed, MemSink, NoMemory, Sink, WriteError, write_lines};
use std::alloc::Global;

/// A sink that keeps each piece apart, with a `|` after it, and fails at the piece `fails_at`,
/// counted from 1.
#[derive(Drop)]
struct Pieces {
    marked: Vec<u8>,
    fails_at: u64,
    puts: u64,
    faults: u64,
}

impl Pieces {
    ghost use Rattle.std.specs.Prelude.{◌≡◌};

    fn new(alloc: Global, fails_at: u64) -> Pieces {
        Pieces {
            marked: Vec::new(alloc),
            fails_at,
            puts: 0,
            faults: 0,
        }
    }

    fn mark(&mut self, piece: &[u8]) -> Result<(), Failed>
        ensures { self.new.faults ≡ self.old.faults }
    {
        self.puts = self.puts.saturating_add(1);
        if self.puts == self.fails_at {
            return Err(Failed);
        }
        self.marked.extend_from_slice(piece).map_err(|_| Failed)?;
        self.marked.push(b'|').map_err(|_| Failed)
    }
}

impl Sink for Pieces {
    ghost use Rattle.std.specs.Prelude.{None};

    ghost written = { λ _. None };

    ghost faults = { λ sink. sink.faults };

    fn put(&mut self, bytes: &[u8]) -> Result<(), Failed> {
        let marked = self.mark(bytes);
        if marked.is_err() {
            self.faults = self.faults.saturating_add(1);
        }
        marked
    }
}

/// Whether the writing of a text ends so, and these pieces go out.
fn is_written(
    alloc: Global,
    text: &str,
    fails_at: u64,
    want: Result<(), WriteError>,
    pieces: &str,
) -> bool
    requires { are_lines text.now ≡ true }
{
    let mut sink = Pieces::new(alloc, fails_at);
    let ended = write_lines(text.as_bytes(), &mut sink);
    sink.marked.as_slice() == pieces.as_bytes() && ended == want
}

/// Each line is a piece, and nothing is written after a failure.
#[test]
fn each_line_is_a_piece(rt: HostRuntime) {
    let alloc = rt.alloc();
    let written = [
        is_written(alloc, "", 0, Ok(()), ""),
        is_written(alloc, "one\n", 0, Ok(()), "one\n|"),
        is_written(alloc, "one\ntwo\n", 0, Ok(()), "one\n|two\n|"),
        is_written(alloc, "\n\nlast line\n", 0, Ok(()), "\n|\n|last line\n|"),
        is_written(
            alloc,
            "one\ntwo\nthree\n",
            2,
            Err(WriteError::Sink),
            "one\n|",
        ),
    ];
    assert_eq!(rt; written, [true; 5]);
}

/// How two lines of 2 bytes end that are written to a sink of 3, and the error of being out of memory.
fn write_two(alloc: Global) -> Result<[Result<(), WriteError>; 3], NoMemory> {
    let mut sink = MemSink::new(alloc, 3)?;
    let (first, second) = (
        write_lines(b"a\n", &mut sink),
        write_lines(b"b\n", &mut sink),
    );
    Ok([first, second, Err(WriteError::from(NoMemory))])
}

#[test]
fn a_line_that_does_not_fit_is_a_fault(rt: HostRuntime) {
    let want = [Ok(()), Err(WriteError::Sink), Err(WriteError::NoMemory)];
    assert_eq!(rt; write_two(rt.alloc()), Ok(want));
}

/// Whether a sink knows that each piece of it was a line: with no piece, after a line, and after half a line.
fn by_lines(alloc: Global) -> Result<[bool; 3], NoMemory> {
    let mut sink = MemSink::new(alloc, 9)?;
    let empty = sink.by_lines();
    let line = sink.put(b"line\n").is_ok() && sink.by_lines();
    let half = sink.put(b"half").is_ok() && sink.by_lines();
    Ok([empty, line, half])
}

#[test]
fn half_a_line_is_no_line(rt: HostRuntime) {
    assert_eq!(rt; by_lines(rt.alloc()), Ok([true, true, false]));
}
