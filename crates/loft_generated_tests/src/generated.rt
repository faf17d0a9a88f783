//! Generated sources and their runs: the numbers that no clause says.

use loft_base::{Gate, MemFiles, MemSink, NoMemory, OpenGate, Turn};
use loft_gen::source_of;
use loft_generated_run::summary_of;
use loft_top::loft_main;
use std::alloc::{AllocError, Global};
use std::sync::Wait;
use std::sync::atomic::{AtomicU64, Ordering};
use std::test::Fail;
use std::thread::Threads;

/// The summary of a run of 7.
const SEVEN: &[u8] =
    b"gen 7\nschedulers 4\nthreads 200\nrounds 3\nshared x0 120600\nshared x1 60300\nshared x2 60300\nshared x3 60300\nended 200\n";

/// The summary of a run of 1.
const ONE: &[u8] =
    b"gen 1\nschedulers 4\nthreads 50\nrounds 2\nshared x0 5100\nshared x1 2550\nshared x2 2550\nshared x3 2550\nended 50\n";

/// The values of the variables and the number of ended threads, which no clause says.
#[test]
fn summaries_have_their_numbers(rt: HostRuntime) -> Result<(), NoMemory> {
    let seven = summary_of(&rt, rt.alloc(), 7, &OpenGate)?;
    assert_eq!(rt; seven.as_slice(), SEVEN);
    let one = summary_of(&rt, rt.alloc(), 1, &OpenGate)?;
    assert_eq!(rt; one.as_slice(), ONE);
    Ok(())
}

/// A gate that counts its passes.
#[derive(Drop)]
struct CountingGate {
    passes: AtomicU64,
}

impl Gate for CountingGate {
    fn pass<R: Threads + Wait + Sync>(&self, _rt: &R, _turn: Turn) {
        self.passes.fetch_add(1, Ordering::SeqCst);
    }
}

/// The words of a command, which stand with a blank between them.
fn words(alloc: Global, command: &str) -> Result<Vec<String>, AllocError> {
    let mut words = Vec::new(alloc);
    for word in command.split(' ') {
        words.push(String::from_str(alloc, word)?)?;
    }
    Ok(words)
}

/// The summary is that of a run: at least two turns of each scheduler pass the gate.
#[test]
fn summaries_are_of_runs(rt: HostRuntime) -> Result<(), Fail> {
    let gate = CountingGate {
        passes: AtomicU64::new(0),
    };
    let words = words(rt.alloc(), "gen 1 --run")?;
    let mut files = MemFiles::new(rt.alloc())?;
    let mut sink = MemSink::new(rt.alloc(), 1024)?;
    let status = loft_main(
        &rt,
        rt.alloc(),
        words.as_slice(),
        &mut files,
        &mut sink,
        &gate,
    );
    assert_eq!(rt; status.code(), 0);
    assert_eq!(rt; sink.bytes(), ONE);
    assert!(rt; gate.passes.load(Ordering::SeqCst) >= 8);
    Ok(())
}

/// The text is made for the largest number.
#[test]
fn largest_source_is_written(rt: HostRuntime) -> Result<(), NoMemory> {
    let text = source_of(rt.alloc(), 1_000)?;
    assert!(rt;
        text.as_slice()
            .ends_with(b"start A0.walk(24);\nstart A0.walk(25);\n")
    );
    Ok(())
}
