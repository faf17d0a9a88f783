//! The outside over the host: real files and standard output, and runtimes that fail or take
//! little at once.

mod fake_files;
mod fake_output;

use self::fake_files::{BYTES, FakeFiles};
use self::fake_output::FakeOutput;
use loft_base::{Failed, FileError, HostFiles, HostSink, NoMemory, Sink, read_whole};
use std::alloc::Global;
use std::path::Path;
use std::{env, fs, rt};

/// Whether a file of at most 10 bytes has these.
fn has_bytes<R: rt::Files>(
    alloc: Global,
    files: &mut HostFiles<'_, R>,
    name: &str,
    bytes: &[u8],
) -> Result<bool, FileError> {
    let whole = read_whole(alloc, files, name, 10)?;
    Ok(whole.as_slice() == bytes)
}

/// Whether a file has the bytes that are written to it, and fails once it is removed.
fn is_there_until_removed(
    rt: &HostRuntime,
    files: &mut HostFiles<'_, HostRuntime>,
    path: Path<'_>,
    bytes: &str,
) -> bool {
    let name = path.to_str().unwrap_or_default();
    let written = fs::write(rt, path, bytes).is_ok();
    let there = has_bytes(rt.alloc(), files, name, bytes.as_bytes());
    let removed = fs::remove_file(rt, path).is_ok();
    let gone = has_bytes(rt.alloc(), files, name, bytes.as_bytes());
    (written, there, removed, gone) == (true, Ok(true), true, Err(FileError::Failed))
}

/// Whether a file in a folder is opened by its name.
fn is_opened(
    rt: &HostRuntime,
    files: &mut HostFiles<'_, HostRuntime>,
    folder: Path<'_>,
    file: &str,
) -> bool {
    match folder.join(rt.alloc(), file) {
        Ok(path) => is_there_until_removed(rt, files, path.as_path(), file),
        Err(_) => false,
    }
}

/// Whether each of two files in a folder is opened by its name.
fn are_opened(rt: &HostRuntime, folder: Path<'_>) -> bool {
    let mut files = HostFiles::new(rt);
    let first = is_opened(rt, &mut files, folder, "loft_one");
    first && is_opened(rt, &mut files, folder, "loft_two")
}

/// Whether reading a folder is a fault.
fn is_fault(rt: &HostRuntime, folder: Path<'_>) -> bool {
    match folder.to_str() {
        Some(name) => {
            let read = has_bytes(rt.alloc(), &mut HostFiles::new(rt), name, b"");
            read == Err(FileError::Failed)
        }
        None => false,
    }
}

#[test]
fn the_named_file_is_opened_and_a_folder_is_a_fault(rt: HostRuntime) {
    let folder = env::temp_dir(&rt).expect(&rt, "no folder for temporary files");
    let found = (
        are_opened(&rt, folder.as_path()),
        is_fault(&rt, folder.as_path()),
    );
    assert_eq!(rt; found, (true, true));
}

/// What each of two files gives.
fn read_two(alloc: Global, fake: &FakeFiles) -> [Result<bool, FileError>; 2] {
    let mut files = HostFiles::new(fake);
    [
        has_bytes(alloc, &mut files, "a", BYTES),
        has_bytes(alloc, &mut files, "b", BYTES),
    ]
}

/// Whether both files give this, where one fails at its read `fails_at`, and each is opened once.
fn is_read(alloc: Global, fails_at: u64, want: Result<bool, FileError>) -> bool {
    let fake = FakeFiles::new(alloc, 4, fails_at);
    let read = read_two(alloc, &fake);
    fake.has_opened(b"a|b|") && read == [want, want]
}

#[test]
fn the_open_file_is_read_on_and_an_error_is_not_the_end(rt: HostRuntime) {
    let (alloc, failed) = (rt.alloc(), Err(FileError::Failed));
    let first = [is_read(alloc, 0, Ok(true)), is_read(alloc, 1, failed)];
    let later = [is_read(alloc, 2, failed), is_read(alloc, 4, failed)];
    assert_eq!(rt; [first, later], [[true, true], [true, true]]);
}

/// How two pieces end that are put into an output, and the end of it.
fn put_two<R: Print>(alloc: Global, output: &R) -> Result<[Result<(), Failed>; 3], NoMemory> {
    let mut sink = HostSink::new(alloc, output)?;
    Ok([sink.put(b"two "), sink.put(b"pieces\n"), sink.finish()])
}

/// Whether two pieces end so that are put into an output, which then has taken this of them. It takes
/// `at_once` bytes at once, and fails from its write `fails_at` on; 0 is never.
fn is_put(
    alloc: Global,
    at_once: usize,
    fails_at: u64,
    want: Result<(), Failed>,
    taken: &str,
) -> bool {
    let output = FakeOutput::new(alloc, at_once, fails_at);
    let ended = put_two(alloc, &output);
    output.has_taken(taken.as_bytes()) && ended == Ok([Ok(()), Ok(()), want])
}

#[test]
fn pieces_go_out_whole_or_the_sink_fails(rt: HostRuntime) {
    let alloc = rt.alloc();
    let put = [
        is_put(alloc, 100, 0, Ok(()), "two pieces\n"),
        is_put(alloc, 3, 0, Ok(()), "two pieces\n"),
        is_put(alloc, 1, 0, Ok(()), "two pieces\n"),
        is_put(alloc, 3, 3, Err(Failed), "two pi"),
        is_put(alloc, 3, 1, Err(Failed), ""),
        is_put(alloc, 0, 0, Err(Failed), ""),
    ];
    assert_eq!(rt; put, [true; 6]);
}

/// How a short and a long piece end that are put into an output.
fn put_long(alloc: Global, output: &FakeOutput) -> Result<[Result<(), Failed>; 2], NoMemory> {
    let mut sink = HostSink::new(alloc, output)?;
    Ok([sink.put(b"a"), sink.put(&[b'x'; 1 << 16])])
}

/// Whether the long piece ends so, and an output has taken so many bytes.
fn is_long_put(alloc: Global, fails_at: u64, want: Result<(), Failed>, len: usize) -> bool {
    let output = FakeOutput::new(alloc, 1 << 20, fails_at);
    let ended = put_long(alloc, &output);
    output.into_len() == len && ended == Ok([Ok(()), want])
}

#[test]
fn what_is_gathered_goes_out_before_a_long_piece(rt: HostRuntime) {
    let both = is_long_put(rt.alloc(), 0, Ok(()), (1 << 16) + 1);
    let none = is_long_put(rt.alloc(), 1, Err(Failed), 0);
    let short = is_long_put(rt.alloc(), 2, Err(Failed), 1);
    assert_eq!(rt; (both, none, short), (true, true, true));
}

#[test]
fn standard_output_takes_pieces(rt: HostRuntime) {
    assert_eq!(rt; put_two(rt.alloc(), &rt), Ok([Ok(()), Ok(()), Ok(())]));
}
