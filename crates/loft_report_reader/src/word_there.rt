//! Words that most lines of a report have, found by their bytes.

ghost use Rattle.std.specs.Prelude.{◌≡◌, ◌≤◌, length, codes, IsTrue};
ghost use Rattle.loft_report_shape.specs.Sets.{set_of};
ghost use Rattle.loft_report_shape.specs.Word.{word_of};
ghost use Rattle.loft_report_shape.specs.declared.part.Part.TheVariants.{Lines, Maker, Wait};
ghost use Rattle.loft_report_reader.specs.Ahead.{BeginsWith, IsThere, may_print, may_stand};

use crate::there::part_there;
use loft_report_sets::word_of;
use loft_report_shape::{Part, Stage, Word};

fn begins_at(bytes: &[u8]) -> bool
    ensures { IsTrue result → BeginsWith (codes "at ") bytes.now }
{
    matches!(bytes, [b'a', b't', b' ', ..])
}

fn begins_print(bytes: &[u8]) -> bool
    ensures { IsTrue result → BeginsWith (codes "print ") bytes.now }
{
    matches!(bytes, [b'p', b'r', b'i', b'n', b't', b' ', ..])
}

fn begins_coop(bytes: &[u8]) -> bool
    ensures { IsTrue result → BeginsWith (codes "coop:") bytes.now }
{
    matches!(bytes, [b'c', b'o', b'o', b'p', b':', ..])
}

fn begins_await(bytes: &[u8]) -> bool
    ensures { IsTrue result → BeginsWith (codes "await:") bytes.now }
{
    matches!(bytes, [b'a', b'w', b'a', b'i', b't', b':', ..])
}

fn begins_start(bytes: &[u8]) -> bool
    ensures { IsTrue result → BeginsWith (codes "start.") bytes.now }
{
    matches!(bytes, [b's', b't', b'a', b'r', b't', b'.', ..])
}

/// Whether lines of threads that stand may come.
fn may_stand(stage: Stage) -> bool
    ensures { result ≡ may_stand stage }
{
    !matches!(stage, Stage::Fresh | Stage::Changed)
}

/// Whether lines of what threads printed may come.
fn may_print(stage: Stage) -> bool
    ensures { result ≡ may_print stage }
{
    matches!(stage, Stage::Batch | Stage::Ordered | Stage::Acts)
}

/// After how many bytes the word with which a line begins is whole, if a further byte comes then; else 0.
pub fn line_there(stage: Stage, bytes: &[u8]) -> usize
    ensures there { IsThere (set_of (Lines stage)) bytes.now result }
    ensures within { result ≤ length bytes.now }
{
    if may_stand(stage) && begins_at(bytes) {
        2
    } else if may_print(stage) && begins_print(bytes) {
        5
    } else {
        part_there(Part::Lines(stage), bytes)
    }
}

/// The same of the word with which a wait begins.
pub fn wait_there(bytes: &[u8]) -> usize
    ensures there { IsThere (set_of Wait) bytes.now result }
    ensures within { result ≤ length bytes.now }
{
    if begins_coop(bytes) {
        4
    } else if begins_await(bytes) {
        5
    } else {
        part_there(Part::Wait, bytes)
    }
}

/// The same of the part of an id before its dot.
pub fn maker_there(bytes: &[u8]) -> usize
    ensures there { IsThere (set_of Maker) bytes.now result }
    ensures within { result ≤ length bytes.now }
{
    if begins_start(bytes) {
        5
    } else {
        part_there(Part::Maker, bytes)
    }
}

fn is_at(bytes: &[u8]) -> bool
    ensures { IsTrue result → bytes.now ≡ codes "at" }
{
    matches!(bytes, [b'a', b't'])
}

fn is_print(bytes: &[u8]) -> bool
    ensures { IsTrue result → bytes.now ≡ codes "print" }
{
    matches!(bytes, [b'p', b'r', b'i', b'n', b't'])
}

fn is_coop(bytes: &[u8]) -> bool
    ensures { IsTrue result → bytes.now ≡ codes "coop" }
{
    matches!(bytes, [b'c', b'o', b'o', b'p'])
}

/// The word that the bytes spell, if they spell one.
pub fn word_soon(bytes: &[u8]) -> Option<Word>
    ensures { result ≡ word_of bytes.now }
{
    if is_at(bytes) {
        Some(Word::At)
    } else if is_print(bytes) {
        Some(Word::Print)
    } else if is_coop(bytes) {
        Some(Word::Coop)
    } else {
        word_of(bytes)
    }
}
