//! Reports in files in memory.

use loft_base::{MemFiles, NoMemory};
use loft_report_file::{ReportFileError, read_log};
use loft_report_reader::LogError;
use std::alloc::Global;

/// A report of one instant of one thread.
static ONE_PRINT: &'static str =
    "loft-report 1\ninstants 100\nbudget 10000\nblock 1000000\nworkers 2\nhistory 2\ntake A\ngive A\nscheduler A\ninstant 1\nin create start.0 m()\nprint start.0 one\nend start.0 done\nstate 0\nleft 0\nend\n";

/// A file with the first bytes of that report.
fn file_of(alloc: Global, length: usize) -> Result<MemFiles, NoMemory> {
    let mut files = MemFiles::new(alloc)?;
    let text = ONE_PRINT.as_bytes();
    files.add(alloc, "report", &text[..length.min(text.len())])?;
    Ok(files)
}

/// How many choices and blocks the file of a name has.
fn counts(alloc: Global, length: usize, name: &str) -> Result<(usize, usize), ReportFileError> {
    let mut files = file_of(alloc, length)?;
    let report = read_log(alloc, &mut files, name)?;
    Ok((report.choices.len(), report.blocks.len()))
}

#[test]
fn files_are_read_as_reports(rt: HostRuntime) {
    let alloc = rt.alloc();
    assert_eq!(rt;
        [
            counts(alloc, usize::MAX, "report"),
            counts(alloc, 100, "report"),
            counts(alloc, 0, "report"),
            counts(alloc, 0, "another")
        ],
        [
            Ok((2, 1)),
            Err(ReportFileError::Log(LogError::Ends { byte: 100 })),
            Err(ReportFileError::Log(LogError::Ends { byte: 0 })),
            Err(ReportFileError::Failed)
        ]
    );
}
