//! The text of a frame.

ghost use Rattle.std.specs.Prelude.{◌++◌, codes};
ghost use Rattle.std.specs.Fmt.{signed_decimal};
ghost use Rattle.loft_value_text.specs.Appending.{Appends};
ghost use Rattle.loft_orders.specs.Text.{separated, value_text, frame_text};

use crate::text::{Item, push_module_name, push_separated};
use crate::writer::TextWriter;
use loft_base::Value;
use loft_orders::Frame;
use loft_tree::Heads;

/// A frame.
fn push_frame<W: TextWriter>(line: &mut W, heads: &Heads, frame: &Frame)
    ensures { Appends W.is_whole W.kept W.extended line.old line.new
        (frame_text heads.now frame.now) }
{
    push_module_name(line, heads, frame.module);
    line.byte(b':');
    line.number(u64::from(frame.stop));
    push_kept(
        line,
        heads,
        frame.counts.as_slice(),
        frame.values.as_slice(),
    );
}

/// What a frame keeps: its counts and its values.
fn push_kept<W: TextWriter>(line: &mut W, heads: &Heads, counts: &[i64], values: &[Value])
    ensures { Appends W.is_whole W.kept W.extended line.old line.new
        (codes "[" ++ (separated signed_decimal counts.now ++ (codes "]("
        ++ (separated (value_text heads.now) values.now ++ codes ")")))) }
{
    line.byte(b'[');
    push_separated(line, heads, counts);
    line.text("](");
    push_separated(line, heads, values);
    line.byte(b')');
}

impl Item for Frame {
    ghost text = { frame_text };

    fn push_to<W: TextWriter>(&self, line: &mut W, heads: &Heads) {
        push_frame(line, heads, self);
    }
}
