//! Reports of one source, and altered ones.

use loft_base::NoMemory;
use loft_names::resolve;
use loft_parse::parse;
use loft_place::{Placed, place};
use loft_replay_report::{ReplayError, replay_all, replay_raw};
use loft_report_reader::{LogError, read_report};
use std::alloc::Global;

/// A program of one thread that prints twice.
static SOURCE: &'static str =
    "scheduler A; module m() in A print \"one\"; cooperate; print \"two\"; end start A.m();";

/// Its report.
static TWO_PRINTS: &'static str =
    "loft-report 1\ninstants 100\nbudget 10000\nblock 1000000\nworkers 2\nhistory 4\ntake A\ngive A\ntake A\ngive A\nscheduler A\ninstant 1\nin create start.0 m()\nprint start.0 one\nat start.0 0 0 coop:0 m:1[]()\ninstant 2\nprint start.0 two\nend start.0 done\nstate 0\nleft 0\nend\n";

/// What is replaced in that report at the first place where it stands, and by what; and the entry that isn't allowed then.
static NOT_ALLOWED: [(&'static str, &'static str, u64); 9] = [
    ("take A\ngive A\ntake", "give A\ntake A\ntake", 1),
    ("history 4\ntake A\ngive A\n", "history 2\n", 3),
    (
        "history 4\ntake A\ngive A\ntake A\ngive A\n",
        "history 0\n",
        1,
    ),
    (
        "4\ntake A\ngive A\ntake A\ngive A\n",
        "3\ntake A\ngive A\ntake A\n",
        4,
    ),
    ("4\ntake A\n", "5\ntake A\ntake A\n", 2),
    ("take A", "take B", 1),
    ("take A", "client A", 1),
    ("take A", "pick 0", 1),
    ("give A\nscheduler", "pick 15\nscheduler", 4),
];

/// The same with the byte at which the text differs from the report of its history.
static DIFFERS: [(&'static str, &'static str, u64); 14] = [
    ("one", "onf", 162),
    ("one", "two", 160),
    ("in create start.0 m()\n", "", 124),
    (
        "in create start.0 m()\n",
        "in create start.0 m()\nin broadcast e start.1\n",
        146,
    ),
    ("in create start.0 m()", "void create start.0 m()", 124),
    (
        "in create",
        "in create start.0 m()\nend start.0 done\nin create",
        146,
    ),
    ("m:1[]", "m:2[]", 188),
    ("coop:0", "coop:-5", 184),
    ("coop:0", "coop:-", 184),
    ("instant 2", "instant 7", 202),
    ("print start.0 two", "gen start.0 e start.1", 204),
    ("state 0\n", "state 0\nshared x 1\n", 247),
    ("left 0\n", "left 1\nA stop start.0\n", 252),
    ("scheduler A\n", "scheduler B\n", 112),
];

/// The report with the first place of a text replaced by another one.
fn altered(alloc: Global, old: &str, new: &str) -> Result<Vec<u8>, NoMemory> {
    let mut text = Vec::new(alloc);
    if let Some((before, after)) = TWO_PRINTS.split_once(old) {
        text.extend_from_slice(before.as_bytes())?;
        text.extend_from_slice(new.as_bytes())?;
        text.extend_from_slice(after.as_bytes())?;
    }
    Ok(text)
}

/// The program.
fn program(alloc: Global) -> Option<Placed> {
    let program = parse(alloc, SOURCE.as_bytes()).ok()?;
    let named = resolve(alloc, program).ok()?;
    place(alloc, named).ok()
}

/// Whether this error is the answer to the altered report.
fn is_answered(alloc: Global, p: &Placed, old: &str, new: &str, error: ReplayError) -> bool {
    match altered(alloc, old, new) {
        Ok(text) => replay_all(alloc, p, text.as_slice()) == Err(error),
        Err(NoMemory) => false,
    }
}

/// The first row of each table that isn't answered by its entry or by its byte.
fn first_others(alloc: Global) -> Option<(Option<usize>, Option<usize>)> {
    let p = program(alloc)?;
    let entries = NOT_ALLOWED.iter().position(|(old, new, entry)| !is_answered(
        alloc,
        &p,
        old,
        new,
        ReplayError::NotAllowed { entry: *entry },
    ));
    let bytes = DIFFERS.iter().position(|(old, new, byte)| !is_answered(
        alloc,
        &p,
        old,
        new,
        ReplayError::Differs { byte: *byte },
    ));
    Some((entries, bytes))
}

#[test]
fn altered_reports_are_refused(rt: HostRuntime) {
    assert_eq!(rt; first_others(rt.alloc()), Some((None, None)));
}

/// The answers to the report, to a prefix of it, and to a text that is no report.
fn answers(alloc: Global) -> Option<[Result<(), ReplayError>; 3]> {
    let p = program(alloc)?;
    Some([
        replay_all(alloc, &p, TWO_PRINTS.as_bytes()),
        replay_all(alloc, &p, &TWO_PRINTS.as_bytes()[..247]),
        replay_all(alloc, &p, b"x"),
    ])
}

/// How many entries the history of the report has, and how many lists of notes there are.
fn replayed(alloc: Global) -> Option<(u64, usize)> {
    let p = program(alloc)?;
    let report = read_report(alloc, TWO_PRINTS.as_bytes()).ok()?;
    let run = replay_raw(alloc, &p, &report).ok()?;
    Some((run.world.length(), run.notes.of.len()))
}

#[test]
fn reports_are_replayed(rt: HostRuntime) {
    let alloc = rt.alloc();
    assert_eq!(rt;
        answers(alloc),
        Some([
            Ok(()),
            Err(ReplayError::Log(LogError::Ends { byte: 247 })),
            Err(ReplayError::Log(LogError::Line { n: 1, byte: 0 })),
        ])
    );
    assert_eq!(rt; replayed(alloc), Some((4, 1)));
}
