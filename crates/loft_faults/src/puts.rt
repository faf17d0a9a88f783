//! A put into the sink that fails.

use crate::asked::{COMMANDS, Contents, ended, files, sink, whole};
use std::sync::Wait;
use std::test::Fail;
use std::thread::Threads;

/// The first lines of a text, this many.
fn first_lines(text: &[u8], count: u64) -> &[u8] {
    let mut left = count;
    for (index, byte) in text.iter().enumerate() {
        if left == 0 {
            return &text[..index];
        }
        if *byte == b'\n' {
            left -= 1;
        }
    }
    text
}

/// Whether a text is the first lines of another one, this many, and then this many bytes.
fn is_cut(text: &[u8], whole: &[u8], lines: u64, keep: usize) -> bool {
    let first = first_lines(whole, lines);
    whole.starts_with(text) && text.len() == first.len().saturating_add(keep)
}

/// Whether the command meets a fault where this put fails and keeps so many bytes. It has to end with 6 then,
/// and its whole answer up to there, and with the whole answer otherwise.
fn meets_fault<R: Threads + Wait + Sync + AllocGlobal>(
    rt: &R,
    command: &str,
    contents: Contents,
    put: u64,
    keep: usize,
) -> Result<bool, Fail> {
    let mut files = files(rt.alloc(), contents)?;
    let mut sink = sink(rt.alloc())?;
    sink.fail_at(rt.alloc(), put, keep)?;
    let answer = whole(rt, command, contents)?;
    match ended(rt, command, &mut files, &mut sink)? {
        6 if is_cut(sink.bytes(), answer.bytes(), put.saturating_sub(1), keep) => Ok(true),
        0 if sink.bytes() == answer.bytes() => Ok(false),
        _ => Err("it has another answer".into()),
    }
}

/// How many pieces a command puts: each put fails in turn and keeps so many bytes, until it meets no fault.
fn puts<R: Threads + Wait + Sync + AllocGlobal>(
    rt: &R,
    command: &str,
    contents: Contents,
    keep: usize,
) -> Result<u64, Fail> {
    for put in 1..99 {
        if !meets_fault(rt, command, contents, put, keep)? {
            return Ok(put - 1);
        }
    }
    Err("it puts many pieces".into())
}

/// How many lines the answer of each command has.
static LINES: [u64; 9] = [21, 21, 7, 1, 9, 1, 22, 1, 9];

/// Each line is a put, and nothing is put after the one that fails.
#[test]
fn each_put_fails_in_turn(rt: HostRuntime) -> Result<(), Fail> {
    for (index, (command, contents)) in COMMANDS.iter().enumerate() {
        for keep in 0..2 {
            assert_eq!(rt; puts(&rt, command, *contents, keep)?, LINES[index]);
        }
    }
    Ok(())
}

/// What the files have where none is read.
static NOTHING: Contents = Contents { a: b"", b: b"" };

/// The same of a summary.
#[test]
fn each_put_of_a_summary_fails_in_turn(rt: HostRuntime) -> Result<(), Fail> {
    assert_eq!(rt; puts(&rt, "gen 1 --run", NOTHING, 1)?, 9);
    Ok(())
}

/// What a run leaves in its sink where the third put fails and keeps so many bytes.
fn third_put<R: Threads + Wait + Sync + AllocGlobal>(rt: &R, keep: usize) -> Result<Vec<u8>, Fail> {
    let mut files = files(rt.alloc(), COMMANDS[0].1)?;
    let mut sink = sink(rt.alloc())?;
    sink.fail_at(rt.alloc(), 3, keep)?;
    ended(rt, "run a", &mut files, &mut sink)?;
    Ok(Vec::from_slice(rt.alloc(), sink.bytes())?)
}

#[test]
fn outside_faults(rt: HostRuntime) -> Result<(), Fail> {
    let (none, four) = (third_put(&rt, 0)?, third_put(&rt, 4)?);
    assert_eq!(rt;
        none.as_slice(),
        b"loft-report 1\ninstants 100\n".as_slice()
    );
    assert_eq!(rt;
        four.as_slice(),
        b"loft-report 1\ninstants 100\nbudg".as_slice()
    );
    Ok(())
}
