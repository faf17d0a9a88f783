//! Classes of bytes.

ghost use Rattle.std.specs.Prelude.{◌≡◌};
ghost use Rattle.std.specs.Str.{bytes_eq};
ghost use Rattle.loft_spelling.specs.Sets.{is_digit, is_empty, is_printed, is_prefix};
ghost use Rattle.loft_lex.specs.Bytes.{is_letter, is_name_byte};

pub fn is_digit(b: u8) -> bool
    ensures { result ≡ is_digit b }
{
    b >= b'0' && b <= b'9'
}

pub fn is_letter(b: u8) -> bool
    ensures { result ≡ is_letter b }
{
    b >= b'A' && b <= b'Z' || b >= b'a' && b <= b'z' || b == b'_'
}

pub fn is_name_byte(b: u8) -> bool
    ensures { result ≡ is_name_byte b }
{
    is_letter(b) || is_digit(b)
}

pub fn is_printed(b: u8) -> bool
    ensures { result ≡ is_printed b }
{
    b >= b' ' && b <= b'~'
}

pub fn is_empty(bytes: &[u8]) -> bool
    ensures { result ≡ is_empty bytes.now }
{
    match bytes {
        [] => true,
        [_, ..] => false,
    }
}

/// The bytes are these.
pub fn is_same(one: &[u8], bytes: &[u8]) -> bool
    ensures { result ≡ bytes_eq one.now bytes.now }
{
    one == bytes
}

/// The bytes are the first ones of the word.
#[tactic(auto, using(crate::proofs::Prefixes::prefix_is))]
pub fn is_prefix(bytes: &[u8], word: &[u8]) -> bool
    ensures { result ≡ is_prefix bytes.now word.now }
{
    word.starts_with(bytes)
}
