//! Numbers and their digits.

ghost use Rattle.std.specs.Prelude.{◌≡◌, ◌≤◌, ◌<◌, ◌^◌, ◌||◌, MatchOption};
ghost use Rattle.std.specs.List.{list_all};
ghost use Rattle.loft_spelling.specs.Sets.{is_digit, is_empty, is_number, value_after, value_of};
ghost use Rattle.loft_report_shape.specs.Sets.{number_set, counts, integers};

use crate::bytes::{is_digit, is_empty};
use loft_report_shape::NumberKind;

/// The largest number.
const MAX_NUMBER: u64 = 9223372036854775807;

/// The number whose negative is the least one.
const LEAST: u64 = 9223372036854775808;

fn all_digits(bytes: &[u8]) -> bool
    ensures { result ≡ list_all is_digit bytes.now }
{
    match bytes {
        [] => true,
        [b, bytes @ ..] => is_digit(*b) && all_digits(bytes),
    }
}

/// The number that the digits write after those of `n`, if it is at most `most`.
#[tactic(auto, using(crate::proofs::Digits::too_large), unfolding(loft_spelling::specs::Sets::value_after))]
fn value_within(n: u64, bytes: &[u8], most: u64) -> Option<u64>
    requires { n ≤ most }
    ensures { MatchOption result (most < value_after n bytes.now) (λ v. (v ≡ value_after n bytes.now) × (v ≤ most)) }
{
    match bytes {
        [] => Some(n),
        [b, bytes @ ..] => {
            let digit = u64::from(b.saturating_sub(b'0'));
            if digit > most {
                return None;
            }
            if n > (most - digit) / 10 {
                return None;
            }
            value_within(n * 10 + digit, bytes, most)
        }
    }
}

/// The number that the digits write.
pub fn value_of(digits: &[u8]) -> u64
    requires { value_of digits.now < 2 ^ 64 }
    ensures { result ≡ value_of digits.now }
{
    value_within(0, digits, u64::MAX).unwrap_or(0)
}

/// Digits without leading zeros, of a number that is at most `most`, and 0 only where `nought` says so.
fn is_number(nought: bool, most: u64, bytes: &[u8]) -> bool
    ensures { result ≡ is_number nought most bytes.now }
{
    match bytes {
        [] => false,
        [b, rest @ ..] => {
            (*b != b'0' || nought && is_empty(rest))
                && (all_digits(bytes) && value_within(0, bytes, most).is_some())
        }
    }
}

fn begins_number(nought: bool, most: u64, bytes: &[u8]) -> bool
    ensures { result ≡ (is_empty bytes.now || is_number nought most bytes.now) }
{
    is_empty(bytes) || is_number(nought, most, bytes)
}

pub fn is_count(bytes: &[u8]) -> bool
    ensures { result ≡ counts.whole bytes.now }
{
    is_number(true, MAX_NUMBER, bytes)
}

pub fn begins_count(bytes: &[u8]) -> bool
    ensures { result ≡ counts.begun bytes.now }
{
    begins_number(true, MAX_NUMBER, bytes)
}

pub fn is_integer(bytes: &[u8]) -> bool
    ensures { result ≡ integers.whole bytes.now }
{
    is_count(bytes)
        || match bytes {
            [] => false,
            [b, bytes @ ..] => *b == b'-' && is_number(false, LEAST, bytes),
        }
}

pub fn begins_integer(bytes: &[u8]) -> bool
    ensures { result ≡ integers.begun bytes.now }
{
    begins_count(bytes)
        || match bytes {
            [] => true,
            [b, bytes @ ..] => *b == b'-' && begins_number(false, LEAST, bytes),
        }
}

/// The bytes are a number of this kind.
pub fn is_of_kind(kind: NumberKind, bytes: &[u8]) -> bool
    ensures { result ≡ (number_set kind).whole bytes.now }
{
    match kind {
        NumberKind::Instants | NumberKind::Budget => is_number(false, 1000000, bytes),
        NumberKind::Block => is_number(false, 100000000, bytes),
        NumberKind::Workers => is_number(false, 16, bytes),
        NumberKind::Pick | NumberKind::Post => is_number(true, 15, bytes),
        NumberKind::Stop => is_number(true, 4294967295, bytes),
        NumberKind::History | NumberKind::States | NumberKind::Left | NumberKind::Count => {
            is_count(bytes)
        }
        NumberKind::Any => is_integer(bytes),
    }
}

/// The bytes are a prefix of a number of this kind.
pub fn begins_kind(kind: NumberKind, bytes: &[u8]) -> bool
    ensures { result ≡ (number_set kind).begun bytes.now }
{
    match kind {
        NumberKind::Instants | NumberKind::Budget => begins_number(false, 1000000, bytes),
        NumberKind::Block => begins_number(false, 100000000, bytes),
        NumberKind::Workers => begins_number(false, 16, bytes),
        NumberKind::Pick | NumberKind::Post => begins_number(true, 15, bytes),
        NumberKind::Stop => begins_number(true, 4294967295, bytes),
        NumberKind::History | NumberKind::States | NumberKind::Left | NumberKind::Count => {
            begins_count(bytes)
        }
        NumberKind::Any => begins_integer(bytes),
    }
}
