//! What is printed in a line, found by the line's end.

ghost use Rattle.std.specs.Prelude.{◌≡◌, ◌≤◌, length};
ghost use Rattle.std.specs.List.{list_all};
ghost use Rattle.loft_spelling.specs.Sets.{is_printed};
ghost use Rattle.loft_report_shape.specs.Sets.{set_of};
ghost use Rattle.loft_report_shape.specs.declared.part.Part.TheVariants.{Text};
ghost use Rattle.loft_report_reader.specs.Ahead.{IsThere};

use crate::there::part_there;
use loft_report_shape::Part;
use memchr::memchr;

/// The most bytes that a line prints.
const MAX_PRINTED: usize = 256;

fn is_printed(b: u8) -> bool
    ensures { result ≡ is_printed b }
{
    b >= b' ' && b <= b'~'
}

/// Whether all bytes are printed ones. It looks at all of them, which many can be looked at at once.
fn all_printed(bytes: &[u8]) -> bool
    ensures { result ≡ list_all is_printed bytes.now }
{
    let mut all = true;
    for b in bytes {
        all &= is_printed(*b);
    }
    all
}

/// After how many bytes the printed line is whole, if a further byte comes then; else 0.
pub fn text_there(bytes: &[u8]) -> usize
    ensures there { IsThere (set_of Text) bytes.now result }
    ensures within { result ≤ length bytes.now }
{
    if let Some(n) = memchr(b'\n', bytes) {
        if n <= MAX_PRINTED && n + 1 < bytes.len() && all_printed(&bytes[..n]) {
            return n + 1;
        }
    }
    part_there(Part::Text, bytes)
}
