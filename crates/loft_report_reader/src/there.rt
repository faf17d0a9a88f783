//! Whole spellings with which a text goes on.

ghost use Rattle.std.specs.Prelude.{◌≡◌, ◌<◌, ◌≤◌, get_or, length, true, IsTrue};
ghost use Rattle.loft_spelling.specs.Sets.{is_digit};
ghost use Rattle.std.specs.List.{list_all};
ghost use Rattle.loft_report_shape.specs.Sets.{number_set, set_of, sign, signs};
ghost use Rattle.loft_report_shape.specs.declared.part.Part.TheVariants.{FirstCount, FirstValue, Limit, Value};
ghost use Rattle.loft_report_sets.specs.Taken.{Run};
ghost use Rattle.loft_report_reader.specs.Ahead.{few_digits, IsPlainNumber, IsThere};

use loft_report_sets::{is_spelling, is_whole, taken};
use loft_report_shape::{NumberKind, Part};

/// The most digits that are counted.
const MAX_DIGITS: usize = 20;

/// After how many bytes a whole spelling of a part ends with which a text goes on, if a further byte comes then; else 0.
pub fn part_there(p: Part, bytes: &[u8]) -> usize
    ensures there { IsThere (set_of p) bytes.now result }
    ensures within { result ≤ length bytes.now }
{
    let n = taken(p, bytes);
    if n < bytes.len() && is_whole(p, &bytes[..n]) {
        n
    } else {
        0
    }
}

/// The same of this byte.
pub fn sign_there(b: u8, bytes: &[u8]) -> usize
    ensures there { IsThere (sign b) bytes.now result }
    ensures byte { 0 < result → get_or bytes.now 0 0 ≡ b }
    ensures two { 0 < result → 2 ≤ length bytes.now }
    ensures within { result ≤ length bytes.now }
{
    match bytes {
        [c, _, ..] => { if *c == b { 1 } else { 0 } }
        _ => 0,
    }
}

fn is_digit(b: u8) -> bool
    ensures { result ≡ is_digit b }
{
    b >= b'0' && b <= b'9'
}

fn digit_bytes(bytes: &[u8]) -> usize
    ensures { Run is_digit 20 bytes.now result }
{
    let mut n = 0;
    while n < bytes.len() && n < MAX_DIGITS && is_digit(bytes[n]) {
        n += 1;
    }
    n
}

/// How many digits a number of the kind may have in each case.
fn few_digits(kind: NumberKind) -> usize
    ensures { result ≡ few_digits kind }
{
    match kind {
        NumberKind::History
        | NumberKind::States
        | NumberKind::Left
        | NumberKind::Count
        | NumberKind::Any => 18,
        NumberKind::Stop => 9,
        NumberKind::Instants
        | NumberKind::Budget
        | NumberKind::Block
        | NumberKind::Workers
        | NumberKind::Pick
        | NumberKind::Post => 0,
    }
}

/// Whether there are digits, without leading zeros.
fn is_plain(digits: &[u8]) -> bool
    ensures { IsTrue result → IsPlainNumber digits.now }
{
    match digits {
        [] => false,
        [_] => true,
        [b, ..] => *b != b'0',
    }
}

/// Whether digits are a number of the kind, without leading zeros.
fn are_number(kind: NumberKind, digits: &[u8]) -> bool
    requires { list_all is_digit digits.now ≡ true }
    ensures { IsTrue result → (number_set kind).whole digits.now ≡ true }
{
    is_plain(digits)
        && (digits.len() <= few_digits(kind) || is_spelling(Part::Number(kind), digits))
}

/// The same of a number without a sign, of few digits.
fn digits_there(kind: NumberKind, bytes: &[u8]) -> usize
    ensures there { IsThere (number_set kind) bytes.now result }
    ensures digit { 0 < result → is_digit (get_or bytes.now 0 0) ≡ true }
    ensures within { result ≤ length bytes.now }
{
    let n = digit_bytes(bytes);
    if n < bytes.len() && n < MAX_DIGITS && are_number(kind, &bytes[..n]) {
        n
    } else {
        0
    }
}

/// The same of a number.
pub fn number_there(kind: NumberKind, bytes: &[u8]) -> usize
    ensures there { IsThere (number_set kind) bytes.now result }
    ensures within { result ≤ length bytes.now }
{
    let n = digits_there(kind, bytes);
    if n > 0 {
        n
    } else {
        part_there(Part::Number(kind), bytes)
    }
}

/// The same of one of these two bytes.
pub fn either_there(a: u8, b: u8, bytes: &[u8]) -> usize
    ensures there { IsThere (signs a b) bytes.now result }
    ensures within { result ≤ length bytes.now }
{
    match bytes {
        [c, _, ..] => {
            if *c == a {
                1
            } else if *c == b {
                1
            } else {
                0
            }
        }
        _ => 0,
    }
}

/// The same of a value.
pub fn value_there(bytes: &[u8]) -> usize
    ensures there { IsThere (set_of Value) bytes.now result }
    ensures within { result ≤ length bytes.now }
{
    let n = digits_there(NumberKind::Any, bytes);
    if n > 0 {
        n
    } else {
        part_there(Part::Value, bytes)
    }
}

/// The same of the first of several values, or the bracket in its place.
pub fn first_value_there(bytes: &[u8]) -> usize
    ensures there { IsThere (set_of FirstValue) bytes.now result }
    ensures within { result ≤ length bytes.now }
{
    let n = digits_there(NumberKind::Any, bytes);
    if n > 0 {
        n
    } else {
        part_there(Part::FirstValue, bytes)
    }
}

/// The same of a limit.
pub fn limit_there(bytes: &[u8]) -> usize
    ensures there { IsThere (set_of Limit) bytes.now result }
    ensures within { result ≤ length bytes.now }
{
    let n = digits_there(NumberKind::Any, bytes);
    if n > 0 {
        n
    } else {
        part_there(Part::Limit, bytes)
    }
}

/// The same of the first of several counts, or the bracket in its place.
pub fn first_count_there(bytes: &[u8]) -> usize
    ensures there { IsThere (set_of FirstCount) bytes.now result }
    ensures within { result ≤ length bytes.now }
{
    if sign_there(b']', bytes) > 0 {
        1
    } else {
        part_there(Part::FirstCount, bytes)
    }
}
