//! Names, and what may stand beside them.

ghost use Rattle.std.specs.Prelude.{◌≡◌, true};
ghost use Rattle.std.specs.List.{list_all};
ghost use Rattle.loft_lex.specs.Bytes.{is_letter, is_name_byte, begins};
ghost use Rattle.loft_lex.specs.Fits.{is_name};
ghost use Rattle.loft_report_shape.specs.Sets.{is_name_part, makers, values};

use crate::bytes::{is_empty, is_letter, is_name_byte, is_prefix, is_same};
use crate::number::{begins_integer, is_integer};
use loft_lex::Word as Reserved;

fn all_name_bytes(bytes: &[u8]) -> bool
    ensures { result ≡ list_all is_name_byte bytes.now }
{
    match bytes {
        [] => true,
        [b, bytes @ ..] => is_name_byte(*b) && all_name_bytes(bytes),
    }
}

fn begins_with_letter(bytes: &[u8]) -> bool
    ensures { result ≡ begins is_letter bytes.now }
{
    match bytes {
        [] => false,
        [b, ..] => is_letter(*b),
    }
}

pub fn is_name(bytes: &[u8]) -> bool
    ensures { result ≡ is_name bytes.now }
{
    begins_with_letter(bytes)
        && all_name_bytes(bytes)
        && bytes.len() <= 64
        && Reserved::of(bytes).is_none()
}

pub fn begins_name(bytes: &[u8]) -> bool
    ensures { result ≡ is_name_part bytes.now }
{
    match bytes {
        [] => true,
        [b, rest @ ..] => is_letter(*b) && all_name_bytes(rest) && bytes.len() <= 64,
    }
}

/// The first bytes of a name are a whole one.
#[tactic(auto, using(crate::proofs::TakenLemmas::name_whole))]
pub fn is_whole_name(bytes: &[u8]) -> bool
    requires { is_name_part bytes.now ≡ true }
    ensures { result ≡ is_name bytes.now }
{
    !is_empty(bytes) && Reserved::of(bytes).is_none()
}

/// The bytes are the part of an id before its dot.
pub fn is_maker(bytes: &[u8]) -> bool
    ensures { result ≡ makers.whole bytes.now }
{
    is_name(bytes) || is_same(b"start", bytes)
}

/// The first bytes of such a part are a whole one.
#[tactic(auto, using(crate::proofs::TakenLemmas::maker_part))]
pub fn is_whole_maker(bytes: &[u8]) -> bool
    requires { makers.begun bytes.now ≡ true }
    ensures { result ≡ makers.whole bytes.now }
{
    is_whole_name(bytes) || is_same(b"start", bytes)
}

pub fn begins_maker(bytes: &[u8]) -> bool
    ensures { result ≡ makers.begun bytes.now }
{
    begins_name(bytes) || is_prefix(bytes, b"start")
}

/// The bytes are a number, or the part of an id before its dot.
pub fn is_value(bytes: &[u8]) -> bool
    ensures { result ≡ values.whole bytes.now }
{
    is_integer(bytes) || is_maker(bytes)
}

pub fn begins_value(bytes: &[u8]) -> bool
    ensures { result ≡ values.begun bytes.now }
{
    begins_integer(bytes) || begins_maker(bytes)
}
