//! The commands that are asked for, each with the contents of the files that it reads.

use loft_base::{MemFiles, MemSink, OpenGate};
use loft_top::loft_main;
use std::alloc::{AllocError, Global};
use std::sync::Wait;
use std::test::Fail;
use std::thread::Threads;

/// The program of two prints.
pub const TWO_PRINTS: &[u8] =
    b"scheduler A; module m() in A print \"one\"; cooperate; print \"two\"; end start A.m();";

/// The listing of its code.
pub const LISTING: &[u8] = b"loft-listing 1
scheduler A;
module m() in A
0 A 0 print \"one\";
1 A 0 @1 cooperate;
2 A 0 print \"two\";
3 A 0 end
end
start A.m();
";

/// A text with a lock.
pub const WITH_LOCK: &[u8] =
    b"scheduler A; lock l in A; module m() in A lock l; print \"one\"; unlock l; end start A.m();";

/// The report of the program of two prints.
pub const REPORT: &[u8] = b"loft-report 1
instants 100
budget 10000
block 1000000
workers 2
history 4
take A
give A
take A
give A
scheduler A
instant 1
in create start.0 m()
print start.0 one
at start.0 0 0 coop:0 m:1[]()
instant 2
print start.0 two
end start.0 done
state 0
left 0
end
";

/// What the files `a` and `b` have.
#[derive(Clone, Copy)]
pub struct Contents {
    pub a: &'static [u8],
    pub b: &'static [u8],
}

/// The source alone.
const SOURCE: Contents = Contents {
    a: TWO_PRINTS,
    b: b"",
};

/// The listing alone.
const LISTED: Contents = Contents { a: LISTING, b: b"" };

/// The text with a lock alone.
const LOCKED: Contents = Contents {
    a: WITH_LOCK,
    b: b"",
};

/// A source and a report.
const REPLAYED: Contents = Contents {
    a: TWO_PRINTS,
    b: REPORT,
};

/// Each command that reads files, with the contents of them.
pub static COMMANDS: [(&str, Contents); 9] = [
    ("run a", SOURCE),
    ("exec a", LISTED),
    ("show a", SOURCE),
    ("check a", SOURCE),
    ("compile a", SOURCE),
    ("bound a", SOURCE),
    ("expand a", LOCKED),
    ("replay a b", REPLAYED),
    ("replay a b --only A", REPLAYED),
];

/// The words of a command, which stand with a blank between them.
pub fn words(alloc: Global, command: &str) -> Result<Vec<String>, AllocError> {
    let mut words = Vec::new(alloc);
    for word in command.split(' ') {
        words.push(String::from_str(alloc, word)?)?;
    }
    Ok(words)
}

/// The files with nothing but `a` and `b`, and no fault planned.
pub fn files(alloc: Global, contents: Contents) -> Result<MemFiles, Fail> {
    let mut files = MemFiles::new(alloc)?;
    files.add(alloc, "a", contents.a)?;
    files.add(alloc, "b", contents.b)?;
    Ok(files)
}

/// A sink that is large enough for each answer, and no fault planned.
pub fn sink(alloc: Global) -> Result<MemSink, Fail> {
    Ok(MemSink::new(alloc, 65_536)?)
}

/// How the command ends.
pub fn ended<R: Threads + Wait + Sync + AllocGlobal>(
    rt: &R,
    command: &str,
    files: &mut MemFiles,
    sink: &mut MemSink,
) -> Result<u8, Fail> {
    let words = words(rt.alloc(), command)?;
    let status = loft_main(rt, rt.alloc(), words.as_slice(), files, sink, &OpenGate);
    Ok(status.code())
}

/// The whole answer of the command, where no call fails.
pub fn whole<R: Threads + Wait + Sync + AllocGlobal>(
    rt: &R,
    command: &str,
    contents: Contents,
) -> Result<MemSink, Fail> {
    let mut files = files(rt.alloc(), contents)?;
    let mut sink = sink(rt.alloc())?;
    if ended(rt, command, &mut files, &mut sink)? != 0 {
        return Err("it has no answer".into());
    }
    Ok(sink)
}
