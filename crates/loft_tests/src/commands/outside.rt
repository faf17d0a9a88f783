//! What the program does with sinks that fail, and with the gate. `.ci/outside.sh` has what it does with files.

ghost use Rattle.std.specs.Prelude.{None};

use loft_base::{Failed, Gate, MemFiles, OpenGate, SchedId, Sink, Turn};
use loft_top::loft_main;
use std::alloc::{AllocError, Global};
use std::sync::Wait;
use std::sync::atomic::{AtomicU64, Ordering};
use std::test::Fail;
use std::thread::Threads;

/// The words of a command.
fn words(alloc: Global, words: &[&str]) -> Result<Vec<String>, AllocError> {
    let mut list = Vec::new(alloc);
    for word in words {
        list.push(String::from_str(alloc, word)?)?;
    }
    Ok(list)
}

/// A program whose text isn't the canonical one.
const SHOWN: &[u8] = b"scheduler A; module m(int x) in A to A print \"//\"; end";

/// A sink that takes so many pieces and then fails.
#[derive(Drop)]
struct FailingSink {
    bytes: Vec<u8>,
    left: u64,
    faults: u64,
}

impl Sink for FailingSink {
    ghost written = { λ _. None };

    ghost faults = { λ sink. sink.faults };

    fn put(&mut self, bytes: &[u8]) -> Result<(), Failed> {
        if self.left > 0 && self.bytes.extend_from_slice(bytes).is_ok() {
            self.left -= 1;
            return Ok(());
        }
        self.faults = self.faults.saturating_add(1);
        Err(Failed)
    }
}

/// What a sink has, and how the program ends, where the sink fails at its third piece.
fn cut_off<R: Threads + Wait + Sync + AllocGlobal>(
    rt: &R,
    asked: &[&str],
    contents: &[u8],
) -> Result<(u8, Vec<u8>), Fail> {
    let asked = words(rt.alloc(), asked)?;
    let mut files = MemFiles::new(rt.alloc())?;
    files.add(rt.alloc(), "a", contents)?;
    let mut sink = FailingSink {
        bytes: Vec::new(rt.alloc()),
        left: 2,
        faults: 0,
    };
    let status = loft_main(
        rt,
        rt.alloc(),
        asked.as_slice(),
        &mut files,
        &mut sink,
        &OpenGate,
    );
    Ok((status.code(), sink.bytes))
}

/// After a failure of the sink nothing more is written; each line is a piece of its own.
#[test]
fn stops_at_a_sink_fault(rt: HostRuntime) -> Result<(), Fail> {
    let (status, text) = cut_off(&rt, &["run", "a"], TWO_PRINTS)?;
    assert_eq!(rt; status, 6);
    assert_eq!(rt;
        text.as_slice(),
        b"loft-report 1\ninstants 100\n".as_slice()
    );
    let (status, text) = cut_off(&rt, &["show", "a"], SHOWN)?;
    assert_eq!(rt; status, 6);
    assert_eq!(rt;
        text.as_slice(),
        b"scheduler A;\nmodule m(int x) in A\n".as_slice()
    );
    Ok(())
}

/// The program of two prints.
const TWO_PRINTS: &[u8] =
    b"scheduler A; module m() in A print \"one\"; cooperate; print \"two\"; end start A.m();";

/// A gate that notes the numbers of the instants of scheduler 0 as decimal digits, and each other turn as 0.
#[derive(Drop)]
struct NotingGate {
    noted: AtomicU64,
}

impl NotingGate {
    /// Notes a digit.
    fn note(&self, digit: u64) {
        let noted = self.noted.load(Ordering::SeqCst);
        self.noted.store(noted.wrapping_mul(10).wrapping_add(digit), Ordering::SeqCst);
    }
}

impl Gate for NotingGate {
    fn pass<R: Threads + Wait + Sync>(&self, _rt: &R, turn: Turn) {
        let digit = match turn {
            Turn::Instant {
                s: SchedId(0),
                number,
            } => number,
            _ => 0,
        };
        self.note(digit);
    }
}

/// A sink that notes its first piece as a 9, after the turns that a gate has noted.
#[derive(Drop)]
struct NotingSink<'a> {
    gate: &'a NotingGate,
    has_begun: bool,
}

impl Sink for NotingSink<'_> {
    ghost written = { λ _. None };

    ghost faults = { λ _. 0 };

    fn put(&mut self, _bytes: &[u8]) -> Result<(), Failed> {
        if !self.has_begun {
            self.has_begun = true;
            self.gate.note(9);
        }
        Ok(())
    }
}

/// Each turn passes the gate once, in order, with the number of its instant, and nothing is written
/// before the last of them.
#[test]
fn each_turn_passes_the_gate(rt: HostRuntime) -> Result<(), Fail> {
    let asked = words(rt.alloc(), &["run", "a"])?;
    let mut files = MemFiles::new(rt.alloc())?;
    files.add(rt.alloc(), "a", TWO_PRINTS)?;
    let gate = NotingGate {
        noted: AtomicU64::new(0),
    };
    let mut sink = NotingSink {
        gate: &gate,
        has_begun: false,
    };
    let status = loft_main(
        &rt,
        rt.alloc(),
        asked.as_slice(),
        &mut files,
        &mut sink,
        &gate,
    );
    assert_eq!(rt; status.code(), 0);
    assert_eq!(rt; gate.noted.load(Ordering::SeqCst), 129);
    Ok(())
}
