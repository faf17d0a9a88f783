//! The first line of a block.

ghost use Rattle.std.specs.Prelude.{◌++◌, ◌∷◌, []};
ghost use Rattle.loft_value_text.specs.Appending.{Appends};
ghost use Rattle.loft_orders.specs.Lines.{scheduler_line};

use loft_base::SchedId;
use loft_tree::Heads;
use loft_value_text::{TextWriter, push_scheduler_name};

/// The first line of a scheduler's block (docs/REPORT.md, "The report").
pub fn push_block_start<W: TextWriter>(text: &mut W, heads: &Heads, s: SchedId)
    ensures { Appends W.is_whole W.kept W.extended text.old text.new
        (scheduler_line heads.now s ++ 10 ∷ []) }
{
    text.text("scheduler ");
    push_scheduler_name(text, heads, s);
    text.byte(b'\n');
}
