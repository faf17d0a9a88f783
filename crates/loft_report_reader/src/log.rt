//! Reading a report in pieces.

ghost use Rattle.std.specs.Prelude.{◌≡◌, ◌+◌, ◌<◌, ℕ, List, drop, length};
ghost use Rattle.loft_report_shape.specs.Report.{feeds};
ghost use Rattle.loft_report_reader.specs.Log.{ReadUpTo};

use crate::error::LogError;
use crate::machine::Machine;
use crate::raw::RawReport;
use loft_base::NoMemory;
use memchr::memchr;
use std::alloc::Global;

/// The longest report, 1 GiB.
pub const MAX_REPORT_LEN: u64 = 1073741824;

/// What comes after this byte.
fn past(bytes: &[u8], at: usize) -> &[u8]
    requires { at < length bytes.now }
    ensures { result.now ≡ drop (at + 1) bytes.now }
{
    &bytes[at + 1..]
}

/// How many line feeds there are.
fn feeds(bytes: &[u8]) -> u64
    ensures { result ≡ feeds bytes.now }
{
    let mut n = 0_u64;
    let mut rest = bytes;
    while let Some(at) = memchr(b'\n', rest) {
        n += 1;
        rest = past(rest, at);
    }
    n
}

/// A reader of a report that comes in pieces. It keeps what the report tells, and not its text.
#[derive(Drop)]
pub struct LogReader {
    machine: Machine,
    /// How many bytes were read.
    length: u64,
    /// How many line feeds were read.
    feeds: u64,
    /// Why it gave up.
    error: Option<LogError>,
    ghost read: { ∥ ((text : List ℕ) × ReadUpTo error machine length feeds text) ∥₁ },
}

impl LogReader {
    ghost use Rattle.std.specs.Prelude.{◌+◌, ◌<◌, ◌≤◌, [], ◌++◌, length, None, Some, Ok, Err, OnOk, IfOk, IfErr};
    ghost use Rattle.loft_report_shape.specs.Told.{Report};
    ghost use Rattle.loft_report_shape.specs.Report.{Shape, StopsAt, GoesOn, longest};
    ghost use Rattle.loft_report_reader.specs.declared.error.LogError.{LogError};
    ghost use Rattle.loft_report_reader.specs.declared.error.LogError.TheVariants.{NoMemory as no_memory, TooLong};
    ghost use Rattle.loft_report_reader.specs.Log.{Cause, error_at};
    ghost use Rattle.loft_report_reader.specs.Answer.{HasRead, IsReading, GaveUp, Keeps, Answers, Verdict};

    /// A reader that was given nothing yet.
    ///
    /// # Errors
    ///
    /// Out of memory.
    pub fn new(alloc: Global) -> Result<LogReader, NoMemory>
        ensures read { IfOk result (λ r. HasRead r []) }
        ensures reading { IfOk result IsReading }
    {
        Ok(LogReader {
            machine: Machine::new(alloc)?,
            length: 0,
            feeds: 0,
            error: None,
        })
    }

    /// Keeps the error, which is answered from now on.
    fn fail(&mut self, e: LogError) -> Result<(), LogError>
        requires { ∥ ((text : List ℕ) × Cause e text) ∥₁ }
        ensures kept { self.new.error ≡ Some e }
        ensures told { result ≡ Err e }
    {
        self.error = Some(e);
        Err(e)
    }

    /// Reads a piece with which the text has at most 1 GiB.
    fn take(&mut self, alloc: Global, piece: &[u8]) -> Result<(), LogError>
        requires open_still { self.old.error ≡ None }
        requires room { self.old.length + length piece.now ≤ longest }
        ensures read { (text : List ℕ) → HasRead self.old text → HasRead self.new (text ++ piece.now) }
        ensures answer { Keeps result self.new }
    {
        match self.machine.read(alloc, piece) {
            Err(_) => {
                self.error = Some(LogError::NoMemory);
                Err(LogError::NoMemory)
            }
            Ok(Some(n)) => {
                let feeds_before = self.feeds.saturating_add(feeds(&piece[..n]));
                let line = feeds_before.saturating_add(1);
                let byte = self.length.saturating_add(n as u64);
                let e = LogError::Line { n: line, byte };
                self.error = Some(e);
                Err(e)
            }
            Ok(None) => {
                self.length = self.length.saturating_add(piece.len() as u64);
                self.feeds = self.feeds.saturating_add(feeds(piece));
                Ok(())
            }
        }
    }

    /// Reads the next piece of the text.
    ///
    /// # Errors
    ///
    /// The error of an earlier piece. If there was none: `TooLong` if the text so far has more than 1 GiB, and else
    /// `Line` if it is neither a report nor a prefix of one. Out of memory.
    pub fn feed(&mut self, alloc: Global, piece: &[u8]) -> Result<(), LogError>
        ensures read { (text : List ℕ) → HasRead self.old text → HasRead self.new (text ++ piece.now) }
        ensures goes_on { OnOk result ((text : List ℕ) → HasRead self.old text → (length (text ++ piece.now) ≤ longest) × GoesOn (text ++ piece.now)) }
        ensures cause { IfErr result (λ e. (text : List ℕ) → HasRead self.old text → Cause e (text ++ piece.now)) }
        ensures kept { (e : LogError) → GaveUp self.old e → result ≡ Err e }
        ensures too_long { (text : List ℕ) → HasRead self.old text → IsReading self.old → longest < length (text ++ piece.now) → result ≡ Err TooLong }
        ensures keeps { Keeps result self.new }
    {
        if let Some(e) = self.error {
            return Err(e);
        }
        if piece.len() as u64 > MAX_REPORT_LEN.saturating_sub(self.length) {
            return self.fail(LogError::TooLong);
        }
        self.take(alloc, piece)
    }

    /// The report that was read. It takes no memory.
    ///
    /// # Errors
    ///
    /// The error of a piece. If there was none: `Ends` if the text is a proper prefix of a report.
    pub fn finish(self) -> Result<RawReport, LogError>
        ensures verdict { (text : List ℕ) → HasRead self text → Verdict text result }
        ensures report { (text : List ℕ) → HasRead self text → (r : Report) → length text ≤ longest → Shape text r → Answers result (Ok r) }
        ensures stop { (text : List ℕ) → HasRead self text → (k : ℕ) → length text ≤ longest → StopsAt text k → Answers result (Err (error_at text k)) }
        ensures kept { (e : LogError) → GaveUp self e → result ≡ Err e }
        ensures memory { result ≡ Err no_memory → GaveUp self no_memory }
    {
        let LogReader {
            machine,
            length,
            feeds: _,
            error,
        } = self;
        match error {
            Some(e) => Err(e),
            None => match machine.finish() {
                Some(draft) => Ok(RawReport {
                    options: draft.options,
                    choices: draft.choices,
                    blocks: draft.blocks,
                    left: draft.left,
                }),
                None => Err(LogError::Ends { byte: length }),
            },
        }
    }
}
