//! What is printed in a line.

ghost use Rattle.std.specs.Prelude.{◌≡◌, ◌==◌, ◌&&◌, true};
ghost use Rattle.loft_spelling.specs.Sets.{is_empty, is_line, is_line_part};

use crate::bytes::{is_empty, is_printed};

fn is_last_feed(b: u8, rest: &[u8]) -> bool
    ensures { result ≡ (b == 10 && is_empty rest.now) }
{
    b == b'\n' && is_empty(rest)
}

/// At most `n` printed bytes, and a line feed.
#[tactic(auto, unfolding(loft_spelling::specs::Sets::is_line))]
pub fn is_line(n: usize, bytes: &[u8]) -> bool
    ensures { result ≡ is_line n bytes.now }
{
    match bytes {
        [] => false,
        [b, rest @ ..] => {
            if is_last_feed(*b, rest) {
                return true;
            }
            if n == 0 {
                return false;
            }
            is_printed(*b) && is_line(n - 1, rest)
        }
    }
}

/// The first bytes of such a line.
#[tactic(auto, unfolding(loft_spelling::specs::Sets::is_line_part))]
pub fn begins_line(n: usize, bytes: &[u8]) -> bool
    ensures { result ≡ is_line_part n bytes.now }
{
    match bytes {
        [] => true,
        [b, rest @ ..] => {
            if is_last_feed(*b, rest) {
                return true;
            }
            if n == 0 {
                return false;
            }
            is_printed(*b) && begins_line(n - 1, rest)
        }
    }
}

/// The first bytes of such a line are all of it.
#[tactic(auto, using(crate::proofs::TakenLemmas::line_whole))]
pub fn is_whole_line(bytes: &[u8]) -> bool
    requires { is_line_part 256 bytes.now ≡ true }
    ensures { result ≡ is_line 256 bytes.now }
{
    match bytes {
        [] => false,
        [.., b] => *b == b'\n',
    }
}
