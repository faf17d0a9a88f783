//! Files that tell when a part that isn't the first of a file goes on in another one.

ghost use Rattle.std.specs.Prelude.{None, true};

use crate::asked::{COMMANDS, Contents, sink, whole, words};
use loft_base::{Failed, Files, OpenGate};
use loft_top::loft_main;
use std::sync::Wait;
use std::test::Fail;
use std::thread::Threads;

/// The files `a` and `b`, which is also the file of each other name. A part from a later offset than 0 is a fault where
/// the part before it had another name.
#[derive(Drop)]
struct StrictFiles {
    contents: Contents,
    was_a: bool,
    place: u64,
    faults: u64,
}

impl StrictFiles {
    ghost use Rattle.std.specs.Prelude.{◌≡◌, ◌≤◌, length, IfSome};

    /// Copies a part, where this one may begin at that offset.
    fn copy(&mut self, name: &str, from: u64, into: &mut [u8]) -> Option<usize>
        ensures count { IfSome result (λ k. k ≤ length into.old) }
        ensures same { self.new.faults ≡ self.old.faults }
    {
        let is_a = name == "a";
        if from > 0 && self.was_a != is_a {
            return None;
        }
        self.was_a = is_a;
        let Ok(start) = usize::try_from(from) else {
            return Some(0);
        };
        let file = if is_a {
            self.contents.a
        } else {
            self.contents.b
        };
        let rest = file.get(start..).unwrap_or_default();
        let count = rest.len().min(into.len());
        into[..count].copy_from_slice(&rest[..count]);
        Some(count)
    }
}

impl Files for StrictFiles {
    ghost contents = { λ _ _. None };

    ghost faults = { λ files. files.faults };

    ghost may_ask = { λ _ _. true };

    ghost place = { λ files. files.place };

    fn part(&mut self, name: &str, from: u64, into: &mut [u8]) -> Result<usize, Failed> {
        let Some(count) = self.copy(name, from, into) else {
            self.faults = self.faults.saturating_add(1);
            self.place = 0;
            return Err(Failed);
        };
        self.place = from + count as u64;
        Ok(count)
    }
}

/// Whether a command has the same answer over these files as over those in memory.
fn is_same<R: Threads + Wait + Sync + AllocGlobal>(
    rt: &R,
    command: &str,
    contents: Contents,
) -> Result<bool, Fail> {
    let words = words(rt.alloc(), command)?;
    let mut files = StrictFiles {
        contents,
        was_a: false,
        place: 0,
        faults: 0,
    };
    let mut sink = sink(rt.alloc())?;
    let status = loft_main(
        rt,
        rt.alloc(),
        words.as_slice(),
        &mut files,
        &mut sink,
        &OpenGate,
    );
    let whole = whole(rt, command, contents)?;
    Ok(status.code() == 0 && sink.bytes() == whole.bytes())
}

/// Each command goes on in the file that it read last.
#[test]
fn each_command_reads_on_in_one_file(rt: HostRuntime) -> Result<(), Fail> {
    for (command, contents) in COMMANDS {
        assert!(rt; is_same(&rt, command, contents)?);
    }
    Ok(())
}
