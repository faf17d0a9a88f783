//! Each piece that goes into the sink is a line.

use crate::asked::{COMMANDS, Contents, REPORT, TWO_PRINTS, ended, files, sink};
use std::sync::Wait;
use std::test::Fail;
use std::thread::Threads;

/// How the command ends, if it puts something, and each piece of that is a line.
fn ended_by_lines<R: Threads + Wait + Sync + AllocGlobal>(
    rt: &R,
    command: &str,
    contents: Contents,
) -> Result<u8, Fail> {
    let mut files = files(rt.alloc(), contents)?;
    let mut sink = sink(rt.alloc())?;
    let status = ended(rt, command, &mut files, &mut sink)?;
    if sink.bytes().is_empty() || !sink.by_lines() {
        return Err("it puts no lines".into());
    }
    Ok(status)
}

/// Each answer goes out line by line.
#[test]
fn each_answer_is_put_by_lines(rt: HostRuntime) -> Result<(), Fail> {
    for (command, contents) in COMMANDS.iter() {
        assert_eq!(rt; ended_by_lines(&rt, command, *contents)?, 0);
    }
    Ok(())
}

/// A source and a report.
static BOTH: Contents = Contents {
    a: TWO_PRINTS,
    b: REPORT,
};

/// Other commands, each with its status.
static OTHERS: [(&str, u8); 9] = [
    ("gen 1", 0),
    ("gen 1 --run", 0),
    ("nothing", 2),
    ("check b", 3),
    ("exec a", 3),
    ("expand b", 3),
    ("replay a b --only B", 3),
    ("replay a a", 4),
    ("show c", 5),
];

/// So does each line in place of an answer.
#[test]
fn each_refusal_is_put_by_lines(rt: HostRuntime) -> Result<(), Fail> {
    for (command, status) in OTHERS.iter() {
        assert_eq!(rt; ended_by_lines(&rt, command, BOTH)?, *status);
    }
    Ok(())
}
