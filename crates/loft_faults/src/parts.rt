//! A part of a file that fails.

use crate::asked::{COMMANDS, Contents, ended, files, sink, whole};
use std::sync::Wait;
use std::test::Fail;
use std::thread::Threads;

/// Whether the command meets a fault where this part fails. It has to end with 5 and `files: fault` then,
/// and with its whole answer otherwise.
fn meets_fault<R: Threads + Wait + Sync + AllocGlobal>(
    rt: &R,
    command: &str,
    contents: Contents,
    part: u64,
) -> Result<bool, Fail> {
    let mut files = files(rt.alloc(), contents)?;
    files.fail_at(rt.alloc(), part)?;
    let mut sink = sink(rt.alloc())?;
    match ended(rt, command, &mut files, &mut sink)? {
        5 if sink.bytes() == b"files: fault\n".as_slice() => Ok(true),
        0 if sink.bytes() == whole(rt, command, contents)?.bytes() => Ok(false),
        _ => Err("it has another answer".into()),
    }
}

/// How many parts a command reads: each of them fails in turn, until it meets no fault.
fn parts<R: Threads + Wait + Sync + AllocGlobal>(
    rt: &R,
    command: &str,
    contents: Contents,
) -> Result<u64, Fail> {
    for part in 1..9 {
        if !meets_fault(rt, command, contents, part)? {
            return Ok(part - 1);
        }
    }
    Err("it reads many parts".into())
}

/// How many parts each command reads of its files: each is one part, and another one that is past its end.
static PARTS: [u64; 9] = [2, 2, 2, 2, 2, 2, 2, 4, 4];

/// Each part of each file fails, and nothing is answered in its place.
#[test]
fn each_part_fails_in_turn(rt: HostRuntime) -> Result<(), Fail> {
    for (index, (command, contents)) in COMMANDS.iter().enumerate() {
        assert_eq!(rt; parts(&rt, command, *contents)?, PARTS[index]);
    }
    Ok(())
}
