//! The words and signs that may come at a place.

ghost use Rattle.std.specs.Prelude.{◌≡◌, ◌==◌, true, if◌then◌else◌};
ghost use Rattle.loft_report_shape.specs.Sets.{menu, sign, signs, block_words, choice_words, final_words, thread_words, line_words, order_words, wait_words, reason_words};

use crate::bytes::{is_empty, is_prefix, is_same};
use crate::word::spelling_of;
use loft_report_shape::{Stage, Word};

/// The bytes spell one of the words.
pub fn is_one_of(words: &[Word], bytes: &[u8]) -> bool
    ensures { result ≡ (menu words.now).whole bytes.now }
{
    match words {
        [] => false,
        [word, words @ ..] => spelling_of(*word) == bytes || is_one_of(words, bytes),
    }
}

/// The bytes are the first ones of one of the words.
pub fn begins_one_of(words: &[Word], bytes: &[u8]) -> bool
    ensures { result ≡ (menu words.now).begun bytes.now }
{
    match words {
        [] => false,
        [word, words @ ..] => is_prefix(bytes, spelling_of(*word)) || begins_one_of(words, bytes),
    }
}

/// The bytes are this one.
pub fn is_sign(b: u8, bytes: &[u8]) -> bool
    ensures { result ≡ (sign b).whole bytes.now }
{
    is_same(&[b], bytes)
}

pub fn begins_sign(b: u8, bytes: &[u8]) -> bool
    ensures { result ≡ (sign b).begun bytes.now }
{
    is_prefix(bytes, &[b])
}

/// The first bytes of a sign are all of it.
#[tactic(auto, using(crate::proofs::TakenLemmas::sign_whole))]
pub fn is_whole_sign(b: u8, bytes: &[u8]) -> bool
    requires { (sign b).begun bytes.now ≡ true }
    ensures { result ≡ (sign b).whole bytes.now }
{
    !is_empty(bytes)
}

/// The bytes are one of these two.
pub fn is_either(a: u8, b: u8, bytes: &[u8]) -> bool
    ensures { result ≡ (signs a b).whole bytes.now }
{
    is_same(&[a], bytes) || is_same(&[b], bytes)
}

pub fn begins_either(a: u8, b: u8, bytes: &[u8]) -> bool
    ensures { result ≡ (signs a b).begun bytes.now }
{
    is_prefix(bytes, &[a]) || is_prefix(bytes, &[b])
}

/// The words of a choice, and after the last one those of the blocks.
pub fn choice_words(left: u64) -> &'static [Word]
    ensures { result.now ≡ (if left == 0 then block_words else choice_words) }
{
    if left == 0 {
        &[Word::Scheduler, Word::Left]
    } else {
        &[Word::Take, Word::Give, Word::Pick, Word::Post, Word::Client]
    }
}

/// The words of a thread of a final state, and what may come after the last one.
pub fn thread_words(left: u64) -> &'static [Word]
    ensures { result.now ≡ (if left == 0 then final_words else thread_words) }
{
    if left == 0 {
        &[Word::Shared, Word::Scheduler, Word::Left]
    } else {
        &[Word::Linked, Word::Suspended]
    }
}

/// The words with which a line of a block begins.
pub fn line_words(stage: Stage) -> &'static [Word]
    ensures { result.now ≡ line_words stage }
{
    match stage {
        Stage::Fresh => &[Word::Instant, Word::State],
        Stage::Batch | Stage::Ordered => &[
            Word::In,
            Word::Void,
            Word::Full,
            Word::Print,
            Word::Gen,
            Word::Out,
            Word::End,
            Word::Leave,
            Word::At,
            Word::Shared,
            Word::Instant,
            Word::State,
        ],
        Stage::Acts => &[
            Word::Print,
            Word::Gen,
            Word::Out,
            Word::End,
            Word::Leave,
            Word::At,
            Word::Shared,
            Word::Instant,
            Word::State,
        ],
        Stage::Leaving => &[
            Word::Leave,
            Word::At,
            Word::Shared,
            Word::Instant,
            Word::State,
        ],
        Stage::Standing => &[Word::At, Word::Shared, Word::Instant, Word::State],
        Stage::Changed => &[Word::Shared, Word::Instant, Word::State],
    }
}

/// The words with which an order begins.
pub fn order_words() -> &'static [Word]
    ensures { result.now ≡ order_words }
{
    &[
        Word::Create,
        Word::Arrive,
        Word::Stop,
        Word::Suspend,
        Word::Resume,
        Word::Broadcast,
        Word::Ended,
    ]
}

/// The words with which a wait begins.
pub fn wait_words() -> &'static [Word]
    ensures { result.now ≡ wait_words }
{
    &[
        Word::New,
        Word::Coop,
        Word::Await,
        Word::Select,
        Word::Next,
        Word::Join,
        Word::Halt,
    ]
}

/// The words with which a reason begins.
pub fn reason_words() -> &'static [Word]
    ensures { result.now ≡ reason_words }
{
    &[
        Word::Done,
        Word::Stopped,
        Word::Full,
        Word::Div,
        Word::Deep,
        Word::Over,
        Word::Flood,
    ]
}
