//! Reports that are read in pieces of 1, 7 and 65,536 bytes.

use loft_base::NoMemory;
use loft_report_reader::{LogError, LogReader, RawReport, read_block, read_history, read_report};
use std::alloc::Global;

/// A report of two instants of one thread.
static TWO_PRINTS: &'static str =
    "loft-report 1\ninstants 100\nbudget 10000\nblock 1000000\nworkers 2\nhistory 4\ntake A\ngive A\ntake A\ngive A\nscheduler A\ninstant 1\nin create start.0 m()\nprint start.0 one\nat start.0 0 0 coop:0 m:1[]()\ninstant 2\nprint start.0 two\nend start.0 done\nstate 0\nleft 0\nend\n";

/// What is replaced in that report at the first place where it stands, and by what; and the line and the byte at which
/// the text stops to be one.
static STOPS: [(&'static str, &'static [u8], u64, u64); 65] = [
    ("m:1[]", b"m:1[-1]", 15, 190),
    ("state 0", b"state -1", 19, 245),
    ("coop:0", b"select:0:e", 15, 189),
    ("coop:0", b"await:-:e[1]", 15, 188),
    ("coop:0", b"await:-:e[256]", 15, 188),
    ("coop:0", b"await:-:e[01]", 15, 188),
    ("coop:0", b"join:1:unlinked.0", 15, 194),
    (
        "in create start.0 m()\n",
        b"in create start.0 m()\nend start.0 done\nend start.0 done\nin create start.0 m()\n",
        16,
        182,
    ),
    ("print start.0 two\n", b"print start.0\n", 17, 217),
    (
        "print start.0 two\n",
        b"print start.0 xxxxxxxxxxxxxxxxxxxxxxxxxxxxxxxxxxxxxxxxxxxxxxxxxxxxxxxxxxxxxxxxxxxxxxxxxxxxxxxxxxxxxxxxxxxxxxxxxxxxxxxxxxxxxxxxxxxxxxxxxxxxxxxxxxxxxxxxxxxxxxxxxxxxxxxxxxxxxxxxxxxxxxxxxxxxxxxxxxxxxxxxxxxxxxxxxxxxxxxxxxxxxxxxxxxxxxxxxxxxxxxxxxxxxxxxxxxxxxxxxxxxxxxxxxxxxxxxx\n",
        17,
        474,
    ),
    (
        "print start.0 two\n",
        b"print start.18446744073709551615 two\n",
        17,
        235,
    ),
    (
        "end start.0 done\n",
        b"end start.0 over m:4294967296\n",
        18,
        250,
    ),
    (
        "end start.0 done\n",
        b"end start.0 over unlinked:1\n",
        18,
        247,
    ),
    ("end start.0 done\n", b"end start.0 don\n", 18, 237),
    ("take A", b"talk A", 7, 76),
    ("take A", b"take event", 7, 84),
    (
        "take A",
        b"take aaaaaaaaaaaaaaaaaaaaaaaaaaaaaaaaaaaaaaaaaaaaaaaaaaaaaaaaaaaaaaaaa",
        7,
        143,
    ),
    ("take A", b"turn A", 7, 75),
    ("take A", b"pick 16", 7, 80),
    ("take A", b"pick 01", 7, 80),
    ("left 0\nend", b"left 1\nend", 21, 257),
    ("left 0\n", b"left 1\nunlinked stop start.0\n", 21, 262),
    ("state 0\n", b"state 1\n", 20, 248),
    ("history", b"history 0", 6, 73),
    ("instants 100", b"instants 1000001", 2, 29),
    ("instants 100", b"instants 0", 2, 23),
    ("instants 100", b"instants 0100", 2, 23),
    ("workers 2", b"workers 17", 5, 63),
    ("workers 2", b"workers 0", 5, 62),
    ("budget 10000", b"budget -1", 3, 34),
    ("block 1000000", b"block 100000001", 4, 54),
    ("loft-report", b"loft-Report", 1, 5),
    ("report 1", b"report 2", 1, 12),
    ("end\n", b"end\nx", 22, 258),
    ("end\n", b"end\n\n", 22, 258),
    ("one", b"on\x7f", 14, 162),
    ("one", b"on\xff", 14, 162),
    ("0 0 coop", b"0 -0 coop", 15, 178),
    ("history 4", b"history 9223372036854775807", 11, 120),
    ("history 4", b"history 9223372036854775808", 6, 90),
    ("history 4", b"history -1", 6, 72),
    ("print start.0 two", b"shared x A.5", 18, 217),
    ("print start.0 two", b"leave start.0 unlinked", 18, 227),
    ("print start.0 two", b"leave start.0 unlinkedx", 18, 228),
    ("print start.0 two", b"leave start.0 unlinkee", 18, 227),
    (
        "print start.0 two\n",
        b"print start.0 two\nin create start.0 m()\n",
        18,
        224,
    ),
    ("0\nwo", b"0\nwo//\xff\n", 5, 56),
    ("stant ", b"stnt ", 12, 118),
    ("block 100", b"bloc9 100", 4, 44),
    ("nstan", b"ns0an", 2, 17),
    ("duler A\nins", b"ducer A\ninsb", 11, 108),
    ("instant 1\n", b"i\x7fnt 1\nnstant 1\n", 12, 115),
    ("0 ", b"0", 13, 141),
    ("tat", b"\nta", 19, 240),
    ("get 10", b"g(nt 10", 3, 31),
    (" ", b"9223372036854775808 ", 1, 11),
    (" 1\nin", b" 1in", 1, 13),
    ("r ", b"\"", 11, 110),
    ("e 0\nleft 0\ne", b"e 0\nleft 0", 20, 253),
    ("stant", b"stan2", 2, 20),
    ("\ninstan", b"\ninustan", 2, 16),
    ("r A\ninst", b"r 1_r A(A\n", 11, 112),
    ("t 10000\nbl", b"t 100c\x7f0s\nbl", 3, 37),
    ("ke A\ng", b"ke", 7, 78),
    ("duler A\ninst", b"duler A\ninsat", 12, 117),
];

/// The report with `new` in place of the first `old`.
fn altered(alloc: Global, old: &str, new: &[u8]) -> Result<Vec<u8>, NoMemory> {
    let mut text = Vec::new(alloc);
    if let Some((before, after)) = TWO_PRINTS.split_once(old) {
        text.extend_from_slice(before.as_bytes())?;
        text.extend_from_slice(new)?;
        text.extend_from_slice(after.as_bytes())?;
    }
    Ok(text)
}

/// Feeds a text in pieces of a byte and `more` bytes.
fn feed_all(alloc: Global, reader: &mut LogReader, text: &[u8], more: u16) -> Result<(), LogError> {
    for piece in text.chunks(usize::from(more) + 1) {
        reader.feed(alloc, piece)?;
    }
    Ok(())
}

/// The report that comes in such pieces.
fn read_in_pieces(alloc: Global, text: &[u8], more: u16) -> Result<RawReport, LogError> {
    let mut reader = LogReader::new(alloc)?;
    let fed = feed_all(alloc, &mut reader, text, more);
    match fed {
        Ok(()) => reader.finish(),
        Err(e) => Err(e),
    }
}

/// Why a text in pieces is no report, if it is none.
fn fault_in_pieces(alloc: Global, text: &[u8], more: u16) -> Option<LogError> {
    match read_in_pieces(alloc, text, more) {
        Ok(_) => None,
        Err(e) => Some(e),
    }
}

fn stops_there(
    alloc: Global,
    row: &(&'static str, &'static [u8], u64, u64),
    more: u16,
) -> Result<bool, NoMemory> {
    let (old, new, n, byte) = *row;
    let text = altered(alloc, old, new)?;
    Ok(fault_in_pieces(alloc, text.as_slice(), more) == Some(LogError::Line { n, byte }))
}

/// The first row whose text doesn't stop at its line and byte.
fn first_other(alloc: Global, more: u16) -> Option<usize> {
    STOPS
        .iter()
        .position(|row| stops_there(alloc, row, more) != Ok(true))
}

#[test]
fn altered_reports_stop_in_their_line(rt: HostRuntime) {
    let alloc = rt.alloc();
    assert_eq!(rt;
        [
            first_other(alloc, 0),
            first_other(alloc, 6),
            first_other(alloc, 65535)
        ],
        [None; 3]
    );
}

/// The least length at which a cut report isn't answered by its length.
fn first_long(alloc: Global, more: u16) -> Option<usize> {
    (0..TWO_PRINTS.len()).find(|length| {
        fault_in_pieces(alloc, &TWO_PRINTS.as_bytes()[..*length], more)
            != Some(LogError::Ends {
                byte: *length as u64,
            })
    })
}

#[test]
fn cut_reports_end_at_their_length(rt: HostRuntime) {
    let alloc = rt.alloc();
    assert_eq!(rt;
        [
            first_long(alloc, 0),
            first_long(alloc, 6),
            first_long(alloc, 65535)
        ],
        [None; 3]
    );
}

/// How many choices, blocks and left-over bytes there are, and the most instants that there may be.
fn counts(alloc: Global) -> Result<(usize, usize, usize, u64), LogError> {
    let report = read_report(alloc, TWO_PRINTS.as_bytes())?;
    Ok((
        report.choices.len(),
        report.blocks.len(),
        report.left.len(),
        report.options.limits.instants,
    ))
}

/// How many instants the block of a scheduler has, if there is one.
fn instants_of(alloc: Global, scheduler: &str) -> Result<Option<usize>, LogError> {
    let block = read_block(alloc, TWO_PRINTS.as_bytes(), scheduler)?;
    Ok(block.map(|block| block.instants.len()))
}

/// How many workers and choices there are.
fn history(alloc: Global) -> Result<(u32, usize), LogError> {
    let (options, choices) = read_history(alloc, TWO_PRINTS.as_bytes())?;
    Ok((options.workers, choices.len()))
}

#[test]
fn reports_are_read(rt: HostRuntime) {
    let alloc = rt.alloc();
    assert_eq!(rt; counts(alloc), Ok((4, 1, 7, 100)));
    assert_eq!(rt; history(alloc), Ok((2, 4)));
    assert_eq!(rt;
        [instants_of(alloc, "A"), instants_of(alloc, "B")],
        [Ok(Some(2)), Ok(None)]
    );
}
