//! Whole spellings of the parts that most lines have.

ghost use Rattle.std.specs.Prelude.{◌≤◌, length};
ghost use Rattle.loft_report_shape.specs.Sets.{set_of};
ghost use Rattle.loft_report_reader.specs.Ahead.{IsThere};

use crate::text_there::text_there;
use crate::there::{
    either_there, first_count_there, first_value_there, limit_there, number_there, part_there,
    value_there,
};
use crate::word_there::{line_there, maker_there, wait_there};
use loft_report_shape::Part;

/// After how many bytes a whole spelling of a part ends with which a text goes on, if a further byte comes then; else 0.
/// Soon for the parts that most lines have.
pub fn soon_there(p: Part, bytes: &[u8]) -> usize
    ensures there { IsThere (set_of p) bytes.now result }
    ensures within { result ≤ length bytes.now }
{
    match p {
        Part::Number(kind) => number_there(kind, bytes),
        Part::Value => value_there(bytes),
        Part::FirstValue => first_value_there(bytes),
        Part::MoreValues => either_there(b',', b')', bytes),
        Part::FirstCount => first_count_there(bytes),
        Part::MoreCounts => either_there(b',', b']', bytes),
        Part::MoreFrames => either_there(b' ', b'\n', bytes),
        Part::Limit => limit_there(bytes),
        Part::Lines(stage) => line_there(stage, bytes),
        Part::Wait => wait_there(bytes),
        Part::Maker => maker_there(bytes),
        Part::Text => text_there(bytes),
        _ => part_there(p, bytes),
    }
}
