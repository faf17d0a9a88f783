//! What the schedulers did, thread by thread.

use loft_base::{Maker, ThreadId};
use loft_orders::{Act, End, InstantNote};
use loft_world::NoteList;
use std::{io, str};

/// How a thread ended.
fn word_of(end: End) -> &'static str {
    match end {
        End::Done => "done",
        End::Stopped => "stopped",
        _ => "failed",
    }
}

/// Prints an act, where it is one of this thread: a line that it printed, or how it ended.
fn tell_act<R: Print>(rt: &R, name: &str, id: ThreadId, act: &Act) -> io::Result<()> {
    match act {
        Act::Print { thread, line } if *thread == id => {
            let text = str::from_utf8(line.as_slice()).unwrap_or_default();
            println!(rt; "{name}: {text}")
        }
        Act::End { thread, end } if *thread == id => {
            let word = word_of(*end);
            println!(rt; "{name}: {word}")
        }
        _ => Ok(()),
    }
}

/// Prints what this thread did in an instant.
fn tell_instant<R: Print>(rt: &R, name: &str, id: ThreadId, note: &InstantNote) -> io::Result<()> {
    for ended in note.stopped.as_slice() {
        if ended.thread == id {
            let word = word_of(ended.end);
            println!(rt; "{name}: {word}")?;
        }
    }
    for act in note.acts.as_slice() {
        tell_act(rt, name, id, act)?;
    }
    Ok(())
}

/// Prints what a thread did that the manager made: what it printed, and how it ended. `seq` is its
/// number among those that the manager made.
pub(crate) fn tell_thread<R: Print>(
    rt: &R,
    name: &str,
    seq: u64,
    notes: &[NoteList],
) -> io::Result<()> {
    let id = ThreadId {
        maker: Maker::Client(0),
        seq,
    };
    for scheduler in notes {
        for note in scheduler.as_slice() {
            tell_instant(rt, name, id, note)?;
        }
    }
    Ok(())
}
