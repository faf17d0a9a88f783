//! The block of a report, and altered ones.

use loft_base::{NoMemory, SchedId};
use loft_block_replay::replay_one;
use loft_names::resolve;
use loft_parse::parse;
use loft_place::{Placed, place};
use loft_replay_error::ReplayError;
use std::alloc::Global;

/// A module whose threads print twice.
static SOURCE: &'static str =
    "scheduler A; event e in A; module m() in A print \"one\"; cooperate; print \"two\"; end start A.m();";

/// The report of its run up to its block, the block, and what comes after it.
static HEAD: &'static str =
    "loft-report 1\ninstants 100\nbudget 10000\nblock 1000000\nworkers 2\nhistory 4\ntake A\ngive A\ntake A\ngive A\n";

static BLOCK: &'static str =
    "scheduler A\ninstant 1\nin create start.0 m()\nprint start.0 one\nat start.0 0 0 coop:0 m:1[]()\ninstant 2\nprint start.0 two\nend start.0 done\nstate 0\n";

static LEFT: &'static str = "left 0\nend\n";

/// What is replaced in the block at the first place where it stands, and by what; and what the replay of it answers.
static ANSWERS: [(&'static str, &'static str, ReplayError); 12] = [
    (
        "in create start.0 m()\n",
        "",
        ReplayError::NotAllowed { entry: 1 },
    ),
    (
        "in create",
        "void create",
        ReplayError::Differs { byte: 124 },
    ),
    (
        "instant 2\n",
        "instant 7\n",
        ReplayError::Differs { byte: 202 },
    ),
    (
        "instant 2\n",
        "instant 2\nin stop start.0\n",
        ReplayError::Differs { byte: 220 },
    ),
    (
        "m()\n",
        "m()\nin broadcast e start.1\n",
        ReplayError::NotAllowed { entry: 1 },
    ),
    (
        "m()\n",
        "m()\nin ended A.0 over z:1\n",
        ReplayError::NotAllowed { entry: 1 },
    ),
    (
        "in create start.0 m()",
        "in arrive start.0 7 -3 new m:0[]()",
        ReplayError::Differs { byte: 188 },
    ),
    (
        "in create start.0 m()",
        "in arrive start.0 7 -3 coop:0 m:0[]()",
        ReplayError::NotAllowed { entry: 1 },
    ),
    (
        "in create start.0 m()",
        "in arrive start.0 7 -3 new m:0[1]()",
        ReplayError::NotAllowed { entry: 1 },
    ),
    (
        "state 0\n",
        "state 0\nshared x 1\n",
        ReplayError::Differs { byte: 247 },
    ),
    (
        "end start.0 done\nstate 0\n",
        "end start.0 done\ninstant 3\nstate 0\n",
        ReplayError::NotAllowed { entry: 3 },
    ),
    (
        "scheduler A\n",
        "scheduler B\n",
        ReplayError::Differs { byte: 247 },
    ),
];

/// A block in which the first place of a text is another one.
fn altered(alloc: Global, old: &str, new: &str) -> Result<String, NoMemory> {
    let mut block = String::new(alloc);
    match BLOCK.split_once(old) {
        Some((before, after)) => {
            block.push_str(before)?;
            block.push_str(new)?;
            block.push_str(after)?;
        }
        None => {}
    }
    Ok(block)
}

/// The report with these blocks.
fn report_of(alloc: Global, blocks: &str, more: &str) -> Result<String, NoMemory> {
    let mut text = String::new(alloc);
    text.push_str(HEAD)?;
    text.push_str(blocks)?;
    text.push_str(more)?;
    text.push_str(LEFT)?;
    Ok(text)
}

/// The program of the source.
fn program(alloc: Global) -> Option<Placed> {
    let program = parse(alloc, SOURCE.as_bytes()).ok()?;
    let named = resolve(alloc, program).ok()?;
    place(alloc, named).ok()
}

/// What the replay of the block of the scheduler answers.
fn replayed(alloc: Global, text: &str) -> Result<Vec<u8>, ReplayError> {
    match program(alloc) {
        Some(p) if !p.heads().schedulers.is_empty() => {
            replay_one(alloc, &p, text.as_bytes(), SchedId(0))
        }
        _ => Err(ReplayError::NoMemory),
    }
}

/// Whether the replay of the altered block answers so.
fn is_answered(
    alloc: Global,
    row: &(&'static str, &'static str, ReplayError),
) -> Result<bool, NoMemory> {
    let (old, new, error) = *row;
    let block = altered(alloc, old, new)?;
    let text = report_of(alloc, block.as_str(), "")?;
    Ok(match replayed(alloc, text.as_str()) {
        Ok(_) => false,
        Err(e) => e == error,
    })
}

/// The first row that is answered otherwise.
fn first_other(alloc: Global) -> Option<usize> {
    ANSWERS
        .iter()
        .position(|row| is_answered(alloc, row) != Ok(true))
}

#[test]
fn altered_blocks_are_refused(rt: HostRuntime) {
    assert_eq!(rt; first_other(rt.alloc()), None);
}

/// Whether the block is the answer, with this further block after it.
fn is_block(alloc: Global, more: &str) -> Result<bool, NoMemory> {
    let text = report_of(alloc, BLOCK, more)?;
    Ok(match replayed(alloc, text.as_str()) {
        Ok(bytes) => bytes.as_slice() == BLOCK.as_bytes(),
        Err(_) => false,
    })
}

#[test]
fn first_blocks_are_answered(rt: HostRuntime) {
    let alloc = rt.alloc();
    assert_eq!(rt;
        [
            is_block(alloc, ""),
            is_block(alloc, "scheduler A\nstate 0\n")
        ],
        [Ok(true); 2]
    );
}
