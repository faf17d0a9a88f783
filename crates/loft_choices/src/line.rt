//! The line of a choice.

ghost use Rattle.loft_history.specs.History.{choice_of};
ghost use Rattle.loft_history.specs.Report.{choice_line};
ghost use Rattle.loft_value_text.specs.Buffer.{Holds};

use loft_orders::Entry;
use loft_tree::Heads;
use loft_value_text::{LineBuffer, push_client_name, push_scheduler_name};

/// Makes the line of the choice by which an entry came, in place of what stands in the buffer.
pub fn make_choice_line(line: &mut LineBuffer, heads: &Heads, entry: &Entry)
    ensures { Holds line.new (choice_line heads.now (choice_of entry.now)) }
{
    line.clear();
    match entry {
        Entry::Take { s, .. } => {
            line.text("take ");
            push_scheduler_name(line, heads, *s);
        }
        Entry::Give { s, .. } => {
            line.text("give ");
            push_scheduler_name(line, heads, *s);
        }
        Entry::Pick { w, .. } => {
            line.text("pick ");
            line.number(u64::from(*w));
        }
        Entry::Post { w, .. } => {
            line.text("post ");
            line.number(u64::from(*w));
        }
        Entry::Client { c, .. } => {
            line.text("client ");
            push_client_name(line, heads, *c);
        }
    }
}
