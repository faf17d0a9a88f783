//! The set of spellings of each part.

ghost use Rattle.std.specs.Prelude.{◌≡◌, true};
ghost use Rattle.loft_report_shape.specs.Sets.{number_set, set_of};
ghost use Rattle.loft_report_shape.specs.declared.part.Part.TheVariants.{Left};

use crate::bytes::is_empty;
use crate::line::{begins_line, is_line, is_whole_line};
use crate::menu::{
    begins_either, begins_one_of, begins_sign, choice_words, is_either, is_one_of, is_sign,
    is_whole_sign, line_words, order_words, reason_words, thread_words, wait_words,
};
use crate::name::{
    begins_maker, begins_name, begins_value, is_maker, is_name, is_value, is_whole_maker,
    is_whole_name,
};
use crate::number::{begins_count, begins_integer, begins_kind, is_count, is_integer, is_of_kind};
use loft_report_shape::{NumberKind, Part, Word};

/// The most bytes that a line prints.
const MAX_PRINTED: usize = 256;

/// The bytes are a spelling of a name of the left-over part, or of its end.
fn is_left(left: u64, bytes: &[u8]) -> bool
    ensures { result ≡ (set_of (Left left)).whole bytes.now }
{
    if left == 0 {
        is_one_of(&[Word::End], bytes)
    } else {
        is_name(bytes)
    }
}

fn begins_left(left: u64, bytes: &[u8]) -> bool
    ensures { result ≡ (set_of (Left left)).begun bytes.now }
{
    if left == 0 {
        begins_one_of(&[Word::End], bytes)
    } else {
        begins_name(bytes)
    }
}

/// The bytes are a spelling of the part (docs/REPORT.md, "The grammar").
pub fn is_spelling(p: Part, bytes: &[u8]) -> bool
    ensures { result ≡ (set_of p).whole bytes.now }
{
    match p {
        Part::Fixed(word) => is_one_of(&[word], bytes),
        Part::Sign(b) => is_sign(b, bytes),
        Part::Number(kind) => is_of_kind(kind, bytes),
        Part::Name(_) => is_name(bytes),
        Part::Maker => is_maker(bytes),
        Part::Value => is_value(bytes),
        Part::FirstValue => is_value(bytes) || is_sign(b')', bytes),
        Part::MoreValues => is_either(b',', b')', bytes),
        Part::FirstCount => is_count(bytes) || is_sign(b']', bytes),
        Part::MoreCounts => is_either(b',', b']', bytes),
        Part::Limit => is_integer(bytes) || is_sign(b'-', bytes),
        Part::MoreEvents => is_either(b',', b' ', bytes),
        Part::Sent => is_either(b' ', b'\n', bytes),
        Part::Goal => is_name(bytes) || is_one_of(&[Word::Unlinked], bytes),
        Part::Text => is_line(MAX_PRINTED, bytes),
        Part::MoreFrames => is_either(b' ', b'\n', bytes),
        Part::Order => is_one_of(order_words(), bytes),
        Part::Wait => is_one_of(wait_words(), bytes),
        Part::Reason => is_one_of(reason_words(), bytes),
        Part::Choices(left) => is_one_of(choice_words(left), bytes),
        Part::Lines(stage) => is_one_of(line_words(stage), bytes),
        Part::States(left) => is_one_of(thread_words(left), bytes),
        Part::Left(left) => is_left(left, bytes),
        Part::Close => is_sign(b'\n', bytes),
    }
}

#[tactic(auto, using(crate::proofs::TakenLemmas::number_whole))]
fn is_whole_number(kind: NumberKind, bytes: &[u8]) -> bool
    requires { (number_set kind).begun bytes.now ≡ true }
    ensures { result ≡ (number_set kind).whole bytes.now }
{
    match kind {
        NumberKind::Any => is_integer(bytes),
        _ => !is_empty(bytes),
    }
}

/// The bytes, which begin a spelling of the part, are a whole one.
pub fn is_whole(p: Part, bytes: &[u8]) -> bool
    requires { (set_of p).begun bytes.now ≡ true }
    ensures { result ≡ (set_of p).whole bytes.now }
{
    match p {
        Part::Sign(b) => is_whole_sign(b, bytes),
        Part::Number(kind) => is_whole_number(kind, bytes),
        Part::Name(_) => is_whole_name(bytes),
        Part::Maker => is_whole_maker(bytes),
        Part::Text => is_whole_line(bytes),
        _ => is_spelling(p, bytes),
    }
}

/// The bytes are a spelling of the part or the first bytes of one.
pub fn begins_spelling(p: Part, bytes: &[u8]) -> bool
    ensures { result ≡ (set_of p).begun bytes.now }
{
    match p {
        Part::Fixed(word) => begins_one_of(&[word], bytes),
        Part::Sign(b) => begins_sign(b, bytes),
        Part::Number(kind) => begins_kind(kind, bytes),
        Part::Name(_) => begins_name(bytes),
        Part::Maker => begins_maker(bytes),
        Part::Value => begins_value(bytes),
        Part::FirstValue => begins_value(bytes) || begins_sign(b')', bytes),
        Part::MoreValues => begins_either(b',', b')', bytes),
        Part::FirstCount => begins_count(bytes) || begins_sign(b']', bytes),
        Part::MoreCounts => begins_either(b',', b']', bytes),
        Part::Limit => begins_integer(bytes) || begins_sign(b'-', bytes),
        Part::MoreEvents => begins_either(b',', b' ', bytes),
        Part::Sent => begins_either(b' ', b'\n', bytes),
        Part::Goal => begins_name(bytes) || begins_one_of(&[Word::Unlinked], bytes),
        Part::Text => begins_line(MAX_PRINTED, bytes),
        Part::MoreFrames => begins_either(b' ', b'\n', bytes),
        Part::Order => begins_one_of(order_words(), bytes),
        Part::Wait => begins_one_of(wait_words(), bytes),
        Part::Reason => begins_one_of(reason_words(), bytes),
        Part::Choices(left) => begins_one_of(choice_words(left), bytes),
        Part::Lines(stage) => begins_one_of(line_words(stage), bytes),
        Part::States(left) => begins_one_of(thread_words(left), bytes),
        Part::Left(left) => begins_left(left, bytes),
        Part::Close => begins_sign(b'\n', bytes),
    }
}
