//! Writing a text to a sink, as every command does.

ghost use Rattle.std.specs.Prelude.{◌≡◌, ◌<◌, ◌≤◌, ◌==◌, length, take, true, IfSome};
ghost use Rattle.std.specs.List.{position_from};
ghost use Rattle.loft_base.specs.Outside.{is_line};
ghost use Rattle.loft_base.specs.Writing.{WritesTo, leading_line, are_lines};

use crate::errors::{Failed, NoMemory};
use crate::outside::Sink;
use memchr::memchr;

/// Why a text wasn't written whole.
#[derive(Clone, Copy, Debug, PartialEq, Eq)]
pub enum WriteError {
    /// The sink failed; its count of faults rose.
    Sink,
    /// Out of memory for a piece of the text.
    NoMemory,
}

impl From<Failed> for WriteError {
    ghost use Rattle.std.specs.Prelude.{◌≡◌};
    ghost use Rattle.loft_base.specs.declared.writing.WriteError.TheVariants.{Sink as sink};

    ghost from_gives = { λ _ e. e ≡ sink };

    fn from(_error: Failed) -> WriteError {
        WriteError::Sink
    }
}

impl From<NoMemory> for WriteError {
    ghost use Rattle.std.specs.Prelude.{◌≡◌};
    ghost use Rattle.loft_base.specs.declared.writing.WriteError.TheVariants.{NoMemory as no_memory};

    ghost from_gives = { λ _ e. e ≡ no_memory };

    fn from(_error: NoMemory) -> WriteError {
        WriteError::NoMemory
    }
}

/// Writes a line, by one `put`. `Sink` comes where the sink failed, and its count of faults rose; a
/// prefix of the line was then written.
fn write_line<S: Sink>(line: &[u8], sink: &mut S) -> Result<(), WriteError>
    requires some { 0 < length line.now }
    requires line { is_line line.now ≡ true }
    ensures { WritesTo S.written S.faults S.room S.by_lines sink.old sink.new result line.now }
{
    sink.put(line)?;
    Ok(())
}

/// Writes a text of whole lines, each by a `put` of its own. `Sink` comes where the sink failed,
/// and its count of faults rose; a prefix of the text was then written.
pub fn write_lines<S: Sink>(text: &[u8], sink: &mut S) -> Result<(), WriteError>
    requires { are_lines text.now ≡ true }
    ensures { WritesTo S.written S.faults S.room S.by_lines sink.old sink.new result text.now }
{
    let mut rest = text;
    'lines: while !rest.is_empty() {
        let (line, more) = rest.split_at(line_len(rest));
        write_line(line, sink)?;
        rest = more;
    }
    Ok(())
}

/// How many bytes the first line of a text has, with its line feed where it has one.
#[tactic(auto, using(crate::proofs::LineLemmas::found_line, crate::proofs::LineLemmas::open_line, crate::proofs::LineLemmas::found_is_line, crate::proofs::LineLemmas::open_is_line))]
fn line_len(text: &[u8]) -> usize
    requires some { 0 < length text.now }
    requires lines { are_lines text.now ≡ true }
    ensures some { 0 < result }
    ensures within { result ≤ length text.now }
    ensures line { take result text.now ≡ leading_line text.now }
    ensures is_line { is_line (take result text.now) ≡ true }
{
    match first_line_feed(text) {
        Some(index) => index + 1,
        None => text.len(),
    }
}

/// Whether a piece is a line: its last byte is its only line feed.
#[tactic(auto, using(crate::proofs::LineLemmas::ended_there, crate::proofs::LineLemmas::not_ended))]
pub fn is_line(piece: &[u8]) -> bool
    ensures { result ≡ is_line piece.now }
{
    match first_line_feed(piece) {
        Some(index) => index + 1 == piece.len(),
        None => false,
    }
}

/// The index of the first line feed of a text.
fn first_line_feed(text: &[u8]) -> Option<usize>
    ensures within { IfSome result (λ index. index < length text.now) }
    ensures first { result ≡ position_from (λ byte. byte == 10) 0 text.now }
{
    memchr(b'\n', text)
}
