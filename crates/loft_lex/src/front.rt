//! What stands at the front of a text.

ghost use Rattle.std.specs.Prelude.{◌≡◌, ◌+◌, ◌<◌, ◌≤◌, ◌∷◌, ◌==◌, ℕ, List, length, MatchOption};
ghost use Rattle.std.specs.List.{prefix_len};
ghost use Rattle.loft_lex.specs.Bytes.{is_blank, is_digit, is_letter, begins, value_of, max_number};
ghost use Rattle.loft_lex.specs.Front.{name_front, number_front, text_end, text_front, sign_of_one, sign_front, front_of};
ghost use Rattle.loft_lex.specs.Scan.{belongs, front_seen, step_len, IsReadable};

use crate::piece::Piece;
use crate::sign::Sign;
use crate::token::LexError;
use crate::word::Word;

/// What stands at the front: a gap and a token take the first byte and `more` after it, and the offset of a
/// fault counts from the front.
#[derive(Clone, Copy)]
pub enum Step {
    Gap(usize),
    Token { piece: Piece, more: usize },
    Fault(LexError),
}

/// A class of bytes that go on with what stands before them.
#[derive(Clone, Copy)]
enum Class {
    Digit,
    Name,
    Comment,
    Text,
}

/// The most bytes of a name.
const MAX_NAME_LEN: usize = 64;

/// The most bytes between the quotes of a text.
const MAX_INSIDE_LEN: usize = 120;

/// The largest number.
const MAX_NUMBER: u64 = 9223372036854775807;

fn is_blank(b: u8) -> bool
    ensures { result ≡ is_blank b }
{
    b == b' ' || b == b'\t' || b == b'\r' || b == b'\n'
}

fn is_digit(b: u8) -> bool
    ensures { result ≡ is_digit b }
{
    b >= b'0' && b <= b'9'
}

fn is_letter(b: u8) -> bool
    ensures { result ≡ is_letter b }
{
    b >= b'A' && b <= b'Z' || b >= b'a' && b <= b'z' || b == b'_'
}

fn belongs(class: Class, b: u8) -> bool
    ensures { result ≡ belongs class b }
{
    match class {
        Class::Digit => is_digit(b),
        Class::Name => is_letter(b) || is_digit(b),
        Class::Comment => b != b'\n',
        Class::Text => b >= b' ' && b <= b'~' && b != b'"' && b != b'\\',
    }
}

/// How many bytes at the front belong to the class.
fn run_len(class: Class, bytes: &[u8]) -> usize
    ensures run { result ≡ prefix_len (belongs class) bytes.now }
    ensures fits { result ≤ length bytes.now }
{
    let mut n = 0;
    while n < bytes.len() && belongs(class, bytes[n]) {
        n += 1;
    }
    n
}

/// The value of the digits, where it isn't too large.
fn value_of(digits: &[u8]) -> Option<u64>
    ensures { MatchOption result (max_number < value_of digits.now) (λ v. (v ≡ value_of digits.now) × (v ≤ max_number)) }
{
    let mut value: u64 = 0;
    for b in digits {
        let digit = u64::from(b.saturating_sub(b'0'));
        if value > (MAX_NUMBER - digit) / 10 {
            return None;
        }
        value = value * 10 + digit;
    }
    Some(value)
}

fn begins_with_letter(bytes: &[u8]) -> bool
    ensures { result ≡ begins is_letter bytes.now }
{
    match bytes {
        [] => false,
        [b, ..] => is_letter(*b),
    }
}

fn begins_with_slash(bytes: &[u8]) -> bool
    ensures { result ≡ begins (λ b. b == 47) bytes.now }
{
    match bytes {
        [] => false,
        [b, ..] => *b == b'/',
    }
}

/// The name or word that begins with the letter `b`, with `bytes` after it.
#[tactic(auto, unfolding(crate::specs::Front::name_front))]
fn name_step(b: u8, bytes: &[u8], rest: &[u8]) -> Step
    requires { rest.now ≡ b ∷ bytes.now }
    ensures front { front_seen result ≡ name_front b bytes.now }
    ensures readable { IsReadable rest.now result }
    ensures fits { step_len result ≤ length rest.now }
{
    let more = run_len(Class::Name, bytes);
    if more + 1 > MAX_NAME_LEN {
        return Step::Fault(LexError::LongName(0));
    }
    let piece = match Word::of(&rest[..more + 1]) {
        Some(word) => Piece::Word(word),
        None => Piece::Name,
    };
    Step::Token { piece, more }
}

/// The number that begins with the digit `b`, with `bytes` after it.
#[tactic(auto, unfolding(crate::specs::Front::number_front))]
fn number_step(b: u8, bytes: &[u8], rest: &[u8]) -> Step
    requires { rest.now ≡ b ∷ bytes.now }
    ensures front { front_seen result ≡ number_front b bytes.now }
    ensures readable { IsReadable rest.now result }
    ensures fits { step_len result ≤ length rest.now }
{
    let more = run_len(Class::Digit, bytes);
    match value_of(&rest[..more + 1]) {
        None => Step::Fault(LexError::BadNumber(0)),
        Some(value) => {
            if begins_with_letter(&bytes[more..]) {
                Step::Fault(LexError::BadNumber(0))
            } else {
                Step::Token {
                    piece: Piece::Number(value as i64),
                    more,
                }
            }
        }
    }
}

/// What ends a text with so many bytes inside.
#[tactic(auto, unfolding(crate::specs::Front::text_end))]
fn text_end(inside: usize, bytes: &[u8]) -> Step
    requires { inside ≤ 120 }
    ensures front { front_seen result ≡ text_end inside bytes.now }
    ensures readable { (all : List ℕ) → IsReadable all result }
    ensures fits { step_len result ≤ inside + length bytes.now + 1 }
{
    match bytes {
        [] | [b'\n', ..] => Step::Fault(LexError::OpenText(0)),
        [b'"', ..] => Step::Token {
            piece: Piece::Text,
            more: inside + 1,
        },
        [_, ..] => Step::Fault(LexError::BadByte(inside as u32 + 1)),
    }
}

/// The text that begins with a quote before `bytes`.
#[tactic(auto, unfolding(crate::specs::Front::text_front))]
fn text_step(bytes: &[u8]) -> Step
    ensures front { front_seen result ≡ text_front bytes.now }
    ensures readable { (all : List ℕ) → IsReadable all result }
    ensures fits { step_len result ≤ length bytes.now + 1 }
{
    let inside = run_len(Class::Text, bytes);
    if inside > MAX_INSIDE_LEN {
        Step::Fault(LexError::LongText(0))
    } else {
        text_end(inside, &bytes[inside..])
    }
}

#[tactic(auto, unfolding(crate::specs::Front::sign_of_one))]
fn sign_of_one(b: u8) -> Step
    ensures front { front_seen result ≡ sign_of_one b }
    ensures readable { (bytes : List ℕ) → IsReadable (b ∷ bytes) result }
    ensures fits { step_len result ≤ 1 }
{
    match Sign::of(&[b]) {
        Some(sign) => Step::Token {
            piece: Piece::Sign(sign),
            more: 0,
        },
        None => Step::Fault(LexError::BadByte(0)),
    }
}

/// The longest sign that begins with `b`, with `bytes` after it.
#[tactic(auto, unfolding(crate::specs::Front::sign_front))]
fn sign_step(b: u8, bytes: &[u8]) -> Step
    ensures front { front_seen result ≡ sign_front b bytes.now }
    ensures readable { IsReadable (b ∷ bytes.now) result }
    ensures fits { step_len result ≤ length bytes.now + 1 }
{
    let [c, ..] = bytes else {
        return sign_of_one(b);
    };
    match Sign::of(&[b, *c]) {
        Some(sign) => Step::Token {
            piece: Piece::Sign(sign),
            more: 1,
        },
        None => sign_of_one(b),
    }
}

/// What stands at the front of a text that isn't empty.
#[tactic(auto, unfolding(crate::specs::Front::front))]
pub fn next_step(rest: &[u8]) -> Step
    requires { 0 < length rest.now }
    ensures front { front_seen result ≡ front_of rest.now }
    ensures readable { IsReadable rest.now result }
    ensures fits { step_len result ≤ length rest.now }
{
    match rest {
        [] => Step::Gap(0),
        [b, bytes @ ..] => {
            if is_blank(*b) {
                Step::Gap(0)
            } else if *b == b'/' && begins_with_slash(bytes) {
                Step::Gap(run_len(Class::Comment, bytes))
            } else if is_letter(*b) {
                name_step(*b, bytes, rest)
            } else if is_digit(*b) {
                number_step(*b, bytes, rest)
            } else if *b == b'"' {
                text_step(bytes)
            } else {
                sign_step(*b, bytes)
            }
        }
    }
}
