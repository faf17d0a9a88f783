//! Bytes that are cut at a byte.

ghost use Rattle.std.specs.Prelude.{◌≡◌, ◌<◌, ◌==◌, IfSome, length};
ghost use Rattle.std.specs.List.{position_from};
ghost use Rattle.loft_order_lines.specs.Cut.{IsCut};

/// The index of the first of these bytes.
fn first_of(bytes: &[u8], byte: u8) -> Option<usize>
    ensures within { IfSome result (λ index. index < length bytes.now) }
    ensures first { result ≡ position_from (λ b. b == byte) 0 bytes.now }
{
    bytes.iter().position(|b| *b == byte)
}

/// What comes before the first of these bytes, and what comes after it; where there is none, all and nothing.
pub fn cut_at(bytes: &[u8], byte: u8) -> (&[u8], &[u8])
    ensures { IsCut byte bytes.now result.0.now result.1.now }
{
    match first_of(bytes, byte) {
        Some(index) => (&bytes[..index], &bytes[index + 1..]),
        None => (bytes, &[]),
    }
}
