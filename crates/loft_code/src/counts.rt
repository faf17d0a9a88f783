//! Depths of operations (docs/CODE.md, "Valid code").

ghost use Rattle.std.specs.Prelude.{◌≡◌, ◌+◌, ◌^◌, ◌<◌, map, slice_get};
ghost use Rattle.std.specs.Option.{option_to_list};
ghost use Rattle.loft_code.specs.View.{line_of};
ghost use Rattle.loft_code.specs.Valid.{has_depth, leads_off, has_bad_count};

use crate::limits::MAX_DEPTH;
use crate::op::{is_end, is_turn};
use crate::raw::CodeLine;
use crate::ways::{Way, goes_on_at};

/// Whether the operation with this number, if it is there, has this depth.
fn has_depth(lines: &[CodeLine], number: u64, depth: u64) -> bool
    ensures { result ≡ has_depth depth (slice_get (map line_of lines.now) number) }
{
    match lines.get(number as usize) {
        Some(line) => depth == line.depth,
        None => true,
    }
}

/// Whether an operation at which one goes on, if it does, has another depth.
fn leads_off(lines: &[CodeLine], way: Option<Way>) -> bool
    ensures { result ≡ leads_off (map line_of lines.now) (option_to_list way) }
{
    match way {
        Some(way) => !has_depth(lines, way.at, way.depth),
        None => false,
    }
}

/// Whether the depth of an operation is wrong, or that of one at which it goes on.
pub fn has_bad_count(lines: &[CodeLine], number: u64, line: &CodeLine) -> bool
    requires { number + 1 < 2 ^ 64 }
    ensures { result ≡ has_bad_count (map line_of lines.now) number (line_of line.now) }
{
    let depth = line.depth;
    if MAX_DEPTH < depth {
        return true;
    }
    let ways = goes_on_at(&line.op, number, depth);
    ((number == 0 || is_end(&line.op)) && depth != 0)
        || leads_off(lines, ways.first)
        || leads_off(lines, ways.second)
        || (is_turn(&line.op) && depth == 0)
}
