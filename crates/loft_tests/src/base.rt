//! Each public function once, with ample memory, and what no clause says.

mod host;
mod writing;

use loft_base::{
    Div, EventId, Failed, FileError, Files, Gate, Maker, MemFiles, MemSink, ModuleId, NoMemory,
    OpenGate, SchedId, Sequence, SharedId, Sink, ThreadId, Turn, Value, Values, add, division_law,
    less, mul, quot, read_whole, rem, sub, wrapping_law,
};
use std::alloc::Global;

#[test]
fn ids_differ_by_maker_and_number(rt: HostRuntime) {
    let first = ThreadId {
        maker: Maker::Source,
        seq: 1,
    };
    let second = ThreadId {
        maker: Maker::Sched(0),
        seq: 0,
    };
    let differ = [
        first != second,
        SchedId(1) != SchedId(2),
        EventId(0) != EventId(1),
        SharedId(0) != SharedId(1),
        ModuleId(0) != ModuleId(1),
        Value::Thread(first) != Value::Int(1),
    ];
    assert_eq!(rt; differ, [true; 6]);
}

const LEAST: i64 = i64::MIN;

const MOST: i64 = i64::MAX;

#[test]
fn arithmetic_wraps(rt: HostRuntime) {
    wrapping_law();
    let wrapped = [
        add(MOST, 1),
        add(LEAST, -1),
        sub(LEAST, 1),
        sub(0, LEAST),
        mul(LEAST, -1),
        mul(MOST, 2),
    ];
    let are_less = [less(LEAST, MOST), less(MOST, LEAST), less(0, 0)];
    let want = [LEAST, MOST, MOST, LEAST, LEAST, -2];
    assert_eq!(rt; (wrapped, are_less), (want, [true, false, false]));
}

/// Two numbers, their quotient, and what it leaves.
static DIVISIONS: [(i64, i64, Result<i64, Div>, Result<i64, Div>); 6] = [
    (LEAST, -1, Ok(LEAST), Ok(0)),
    (-7, 2, Ok(-3), Ok(-1)),
    (7, -2, Ok(-3), Ok(1)),
    (LEAST, MOST, Ok(-1), Ok(-1)),
    (1, 0, Err(Div), Err(Div)),
    (LEAST, 0, Err(Div), Err(Div)),
];

/// The first division that has another answer.
fn wrong_division() -> Option<(i64, i64)> {
    for (a, b, quotient, rest) in DIVISIONS {
        if quot(a, b) != quotient || rem(a, b) != rest {
            return Some((a, b));
        }
    }
    None
}

#[test]
fn division_truncates(rt: HostRuntime) {
    division_law();
    assert_eq!(rt; wrong_division(), None);
}

/// Takes what may go to another thread and be shared among threads.
fn crosses_threads<T: Send + Sync>(_value: &T) {}

/// The values that lists begin with.
static FOUR: [Value; 4] = [Value::Int(0), Value::Int(1), Value::Int(2), Value::Int(3)];

/// The values that are put into a list.
static FIVE: [Value; 5] = [
    Value::Int(9),
    Value::Int(7),
    Value::Int(8),
    Value::Int(3),
    Value::Int(5),
];

/// Whether a list has the values that are put into it, each in another way.
fn is_set(alloc: Global) -> Result<bool, NoMemory> {
    let mut values = Values::new(alloc);
    values.extend_from_slice(&FOUR)?;
    values.push(Value::Int(5))?;
    values.set(1, Value::Int(7));
    values[2] = Value::Int(8);
    values.as_mut_slice()[0] = Value::Int(9);
    Ok(values.as_slice() == FIVE.as_slice())
}

/// Whether a list gives its values as they are taken out of it, and has no other.
fn is_cut(alloc: Global) -> Result<bool, NoMemory> {
    let mut values = Values::from_slice(alloc, &FOUR)?;
    let taken = (values.remove(1), values.pop());
    let many = values.len();
    values.truncate(1);
    let one = values.len();
    values.clear();
    let lens = (many, one, values.is_empty());
    Ok((taken, lens) == ((Value::Int(1), Some(Value::Int(3))), (2, 1, true)))
}

/// Whether a list is the same as its copy.
fn is_copied(alloc: Global) -> Result<bool, NoMemory> {
    let values = Values::from_slice(alloc, &FIVE)?;
    crosses_threads(&values);
    let copy = Sequence::from_vec(values.clone()?.into_vec());
    Ok(copy == values)
}

#[test]
fn lists(rt: HostRuntime) {
    let alloc = rt.alloc();
    assert_eq!(rt;
        [is_set(alloc), is_cut(alloc), is_copied(alloc)],
        [Ok(true); 3]
    );
}

/// Adds two files, one of them twice.
fn add_files(alloc: Global, files: &mut MemFiles) -> Result<(), NoMemory> {
    files.add(alloc, "a", b"first")?;
    files.add(alloc, "b", b"other")?;
    files.add(alloc, "a", b"second")
}

/// Adds a file of 40000 bytes.
fn add_long(alloc: Global, files: &mut MemFiles) -> Result<(), NoMemory> {
    let long = vec![in alloc; b'x'; 40000]?;
    files.add(alloc, "long", long.as_slice())
}

/// How many bytes a file has.
fn len_of(alloc: Global, files: &mut MemFiles, name: &str, limit: u32) -> Result<usize, FileError> {
    let bytes = read_whole(alloc, files, name, limit.into())?;
    Ok(bytes.len())
}

/// How many bytes files have, each up to a limit.
fn lens(alloc: Global) -> Result<[Result<usize, FileError>; 6], NoMemory> {
    let mut files = MemFiles::new(alloc)?;
    add_files(alloc, &mut files)?;
    add_long(alloc, &mut files)?;
    Ok([
        len_of(alloc, &mut files, "a", 6),
        len_of(alloc, &mut files, "a", 5),
        len_of(alloc, &mut files, "b", 5),
        len_of(alloc, &mut files, "long", 40000),
        len_of(alloc, &mut files, "long", 39999),
        len_of(alloc, &mut files, "none", 100),
    ])
}

#[test]
fn files_are_read_up_to_a_limit(rt: HostRuntime) {
    let (long, failed) = (Err(FileError::TooLong), Err(FileError::Failed));
    assert_eq!(rt;
        lens(rt.alloc()),
        Ok([Ok(6), long, Ok(5), Ok(40000), long, failed])
    );
}

/// How many bytes of a file come in each of three parts of at most 4, and those of the first.
fn three_parts(files: &mut MemFiles) -> Result<([usize; 3], [u8; 4]), Failed> {
    let (mut first, mut into) = ([0; 4], [0; 4]);
    let one = files.part("a", 0, &mut first)?;
    let two = files.part("a", one as u64, &mut into)?;
    let three = files.part("a", (one + two) as u64, &mut into)?;
    Ok(([one, two, three], first))
}

/// The same of files in memory.
fn parts(alloc: Global) -> Result<Result<([usize; 3], [u8; 4]), Failed>, NoMemory> {
    let mut files = MemFiles::new(alloc)?;
    add_files(alloc, &mut files)?;
    Ok(three_parts(&mut files))
}

#[test]
fn files_are_read_in_parts(rt: HostRuntime) {
    assert_eq!(rt; parts(rt.alloc()), Ok(Ok(([4, 2, 0], *b"seco"))));
}

/// How three pieces end that are put into a sink of 5 bytes, and whether it has the first and the
/// last.
fn put_three(alloc: Global) -> Result<([Result<(), Failed>; 3], bool), NoMemory> {
    let mut sink = MemSink::new(alloc, 5)?;
    let puts = [sink.put(b"abc"), sink.put(b"def"), sink.put(b"gh")];
    Ok((puts, sink.bytes() == b"abcgh".as_slice()))
}

#[test]
fn sink_in_memory_and_open_gate(rt: HostRuntime) {
    assert_eq!(rt;
        put_three(rt.alloc()),
        Ok(([Ok(()), Err(Failed), Ok(())], true))
    );
    OpenGate.pass(&rt, Turn::Block { w: 0 });
}
