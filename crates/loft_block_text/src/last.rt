//! How a scheduler stands in the end.

ghost use Rattle.std.specs.Prelude.{◌++◌, map, codes};
ghost use Rattle.std.specs.Fmt.{signed_decimal};
ghost use Rattle.loft_value_text.specs.Appending.{Appends};
ghost use Rattle.loft_orders.specs.Text.{space};
ghost use Rattle.loft_orders.specs.Lines.{text_of};
ghost use Rattle.loft_sense.specs.Heads.{shared_of};
ghost use Rattle.loft_history.specs.Report.{standing_line, shared_lines, final_lines};

use loft_base::SchedId;
use loft_instant_text::push_thread;
use loft_orders::{FinalState, Standing};
use loft_tree::Heads;
use loft_value_text::TextWriter;

/// The final state of a scheduler's block: how many threads are linked, each with its state, and the scheduler's shared
/// variables with their values (docs/REPORT.md, "The final state").
#[tactic(auto, using(crate::proofs::StandingLemmas::final_parts))]
pub fn push_final<W: TextWriter>(text: &mut W, heads: &Heads, s: SchedId, last: &FinalState)
    ensures { Appends W.is_whole W.kept W.extended text.old text.new
        (text_of (final_lines heads.now s last.now.linked last.now.shared)) }
{
    text.text("state ");
    text.number(last.linked.len() as u64);
    text.byte(b'\n');
    push_standings(text, heads, last.linked.as_slice());
    push_values(text, heads, s, last.shared.as_slice());
}

/// A line for each linked thread.
fn push_standings<W: TextWriter>(text: &mut W, heads: &Heads, linked: &[Standing])
    ensures { Appends W.is_whole W.kept W.extended text.old text.new
        (text_of (map (standing_line heads.now) linked.now)) }
{
    for standing in linked {
        push_standing(text, heads, standing);
        text.byte(b'\n');
    }
}

/// The line of a linked thread, without its line feed.
fn push_standing<W: TextWriter>(text: &mut W, heads: &Heads, standing: &Standing)
    ensures { Appends W.is_whole W.kept W.extended text.old text.new
        (standing_line heads.now standing.now) }
{
    text.text(if standing.suspended {
        "suspended "
    } else {
        "linked "
    });
    push_thread(text, heads, &standing.thread);
}

/// A line for each shared variable of the scheduler, as long as there are values.
fn push_values<W: TextWriter>(text: &mut W, heads: &Heads, s: SchedId, values: &[i64])
    ensures { Appends W.is_whole W.kept W.extended text.old text.new
        (text_of (shared_lines heads.now (shared_of heads.now s) values.now)) }
{
    let mut left = values;
    for head in heads.shared.as_slice() {
        if s.0 == head.scheduler.0 {
            let Some((value, rest)) = left.split_first() else {
                return;
            };
            push_value(text, head.name.as_slice(), *value);
            text.byte(b'\n');
            left = rest;
        }
    }
}

/// The line of a shared variable with its value, without its line feed.
fn push_value<W: TextWriter>(text: &mut W, name: &[u8], value: i64)
    ensures { Appends W.is_whole W.kept W.extended text.old text.new
        (codes "shared " ++ (name.now ++ (space ++ signed_decimal value))) }
{
    text.text("shared ");
    text.bytes(name);
    text.byte(b' ');
    text.signed(value);
}
