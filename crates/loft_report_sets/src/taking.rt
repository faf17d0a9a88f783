//! How many bytes of a text a part takes.

ghost use Rattle.loft_lex.specs.Bytes.{is_name_byte};
ghost use Rattle.loft_spelling.specs.Sets.{is_printed, lines};
ghost use Rattle.loft_report_shape.specs.Sets.{makers, names, sign, set_of};
ghost use Rattle.loft_report_sets.specs.Taken.{Run, Taken};

use crate::bytes::{is_letter, is_name_byte, is_printed};
use crate::set::begins_spelling;
use loft_report_shape::Part;

fn name_bytes(bytes: &[u8]) -> usize
    ensures { Run is_name_byte 64 bytes.now result }
{
    let mut n = 0;
    while n < bytes.len() && n < 64 && is_name_byte(bytes[n]) {
        n += 1;
    }
    n
}

fn printed_bytes(bytes: &[u8]) -> usize
    ensures { Run is_printed 256 bytes.now result }
{
    let mut n = 0;
    while n < bytes.len() && n < 256 && is_printed(bytes[n]) {
        n += 1;
    }
    n
}

fn sign_taken(b: u8, bytes: &[u8]) -> usize
    ensures { Taken (sign b) bytes.now result }
{
    match bytes {
        [] => 0,
        [c, ..] => { if *c == b { 1 } else { 0 } }
    }
}

fn name_taken(bytes: &[u8]) -> usize
    ensures { Taken names bytes.now result }
{
    match bytes {
        [] => 0,
        [b, ..] => { if is_letter(*b) { name_bytes(bytes) } else { 0 } }
    }
}

fn maker_taken(bytes: &[u8]) -> usize
    ensures { Taken makers bytes.now result }
{
    name_taken(bytes)
}

fn line_taken(bytes: &[u8]) -> usize
    ensures { Taken (lines 256) bytes.now result }
{
    let n = printed_bytes(bytes);
    if n < bytes.len() && bytes[n] == b'\n' {
        n + 1
    } else {
        n
    }
}

/// The same, by the test of each prefix.
fn tested_each(p: Part, bytes: &[u8]) -> usize
    ensures { Taken (set_of p) bytes.now result }
{
    let mut n = 0;
    while n < bytes.len() && begins_spelling(p, &bytes[..n + 1]) {
        n += 1;
    }
    n
}

/// The same, where the bytes that may be of a name are most likely those that are taken.
fn tested(p: Part, bytes: &[u8]) -> usize
    ensures { Taken (set_of p) bytes.now result }
{
    let n = name_bytes(bytes);
    if n > 0
        && n < bytes.len()
        && begins_spelling(p, &bytes[..n])
        && !begins_spelling(p, &bytes[..n + 1])
    {
        return n;
    }
    tested_each(p, bytes)
}

/// How many of the first bytes the part takes: they are a prefix of one of its spellings, and with the next byte they
/// are none.
pub fn taken(p: Part, bytes: &[u8]) -> usize
    ensures { Taken (set_of p) bytes.now result }
{
    match p {
        Part::Sign(b) => sign_taken(b, bytes),
        Part::Name(_) => name_taken(bytes),
        Part::Maker => maker_taken(bytes),
        Part::Text => line_taken(bytes),
        _ => tested(p, bytes),
    }
}
