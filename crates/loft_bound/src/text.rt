//! The lines of verdicts.

ghost use Rattle.std.specs.Prelude.{◌<◌, ◌^◌, length, IfOk};
ghost use Rattle.loft_tree.specs.ProgramView.{program_of};
ghost use Rattle.loft_orders.specs.Lines.{text_of};
ghost use Rattle.loft_value_text.specs.Buffer.{Adds};
ghost use Rattle.loft_bound.specs.BoundText.{place_line, verdict_line, verdict_lines, IsBoundText};

use crate::verdicts::bounds;
use loft_base::{ModuleId, NoMemory};
use loft_budget::Verdict;
use loft_place::Placed;
use loft_tree::Heads;
use loft_value_text::{LineBuffer, push_module_name};
use std::alloc::Global;

/// A word, the module, and where.
fn push_place(line: &mut LineBuffer, word: &str, heads: &Heads, m: ModuleId, at: u32)
    ensures { Adds line.old line.new (place_line word.now heads.now m at) }
{
    line.text(word);
    push_module_name(line, heads, m);
    line.text(" at ");
    line.number(u64::from(at));
}

/// The line of a verdict.
fn push_verdict(line: &mut LineBuffer, heads: &Heads, m: ModuleId, v: Verdict)
    ensures { Adds line.old line.new (verdict_line heads.now m v) }
{
    match v {
        Verdict::Bound(n) => {
            line.text("bound ");
            push_module_name(line, heads, m);
            line.text(" ");
            line.number(n);
        }
        Verdict::Recursive(at) => push_place(line, "recursive ", heads, m, at),
        Verdict::Runs(at) => push_place(line, "runs ", heads, m, at),
        Verdict::Endless(at) => push_place(line, "endless ", heads, m, at),
        Verdict::Large => {
            line.text("large ");
            push_module_name(line, heads, m);
        }
    }
}

/// The lines of verdicts.
fn push_lines(text: &mut LineBuffer, heads: &Heads, verdicts: &[Verdict])
    requires { length verdicts.now < 2 ^ 32 }
    ensures { Adds text.old text.new (text_of (verdict_lines heads.now 0 verdicts.now)) }
{
    for (number, v) in verdicts.iter().enumerate() {
        push_verdict(text, heads, ModuleId(number as u32), *v);
        text.byte(b'\n');
    }
}

/// The text of the command `bound`: a line for each module of the program, in the order of the text,
/// with its verdict (docs/COMMANDS.md, "bound").
///
/// # Errors
///
/// Out of memory for the verdicts or the text.
pub fn bound_text(alloc: Global, p: &Placed) -> Result<Vec<u8>, NoMemory>
    ensures { IfOk result (λ text. IsBoundText (program_of p.now) text.items) }
{
    let verdicts = bounds(alloc, p)?;
    let mut text = LineBuffer::new(alloc);
    push_lines(&mut text, &p.program().heads, verdicts.as_slice());
    if text.is_whole {
        Ok(text.text)
    } else {
        Err(NoMemory)
    }
}
