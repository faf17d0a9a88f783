//! The lines of a report that its text has and its parts don't.

ghost use Rattle.std.specs.Prelude.{[], ◌∷◌, ◌++◌};
ghost use Rattle.std.specs.Fmt.{decimal};
ghost use Rattle.loft_report_shape.specs.Text.{choice_text, line_of};
ghost use Rattle.loft_report_shape.specs.declared.word.Word.TheVariants.{Scheduler};
ghost use Rattle.loft_value_text.specs.Buffer.{Adds};
ghost use Rattle.loft_compared.specs.Places.{options_text};

use crate::place::Head;
use loft_report_shape::Choice;
use loft_tree::Name;
use loft_value_text::LineBuffer;

/// Appends the line of a word and a number.
fn push_number(line: &mut LineBuffer, word: &str, number: u64)
    ensures { Adds line.old line.new (word.now ++ (decimal number ++ 10 ∷ [])) }
{
    line.text(word);
    line.number(number);
    line.byte(b'\n');
}

/// Appends the line of a word and a name.
fn push_name(line: &mut LineBuffer, word: &str, name: &Name)
    ensures { Adds line.old line.new (word.now ++ (name.now ++ 10 ∷ [])) }
{
    line.text(word);
    line.bytes(name.as_slice());
    line.byte(b'\n');
}

/// Appends the lines of the options, and that of how many choices there are.
pub(crate) fn push_options(line: &mut LineBuffer, head: Head)
    ensures { Adds line.old line.new (options_text head.options head.choices) }
{
    line.text("loft-report 1\n");
    push_number(line, "instants ", head.options.limits.instants);
    push_number(line, "budget ", head.options.limits.budget);
    push_number(line, "block ", head.options.limits.block);
    push_number(line, "workers ", u64::from(head.options.workers));
    push_number(line, "history ", head.choices);
}

/// Appends the line of a choice.
pub(crate) fn push_choice(line: &mut LineBuffer, choice: &Choice)
    ensures { Adds line.old line.new (choice_text choice.now) }
{
    match choice {
        Choice::Take(name) => push_name(line, "take ", name),
        Choice::Give(name) => push_name(line, "give ", name),
        Choice::Pick(worker) => push_number(line, "pick ", u64::from(*worker)),
        Choice::Post(worker) => push_number(line, "post ", u64::from(*worker)),
        Choice::Client(name) => push_name(line, "client ", name),
    }
}

/// Appends the line with which the block of a scheduler of this name begins.
pub(crate) fn push_scheduler(line: &mut LineBuffer, name: &Name)
    ensures { Adds line.old line.new (line_of Scheduler name.now) }
{
    push_name(line, "scheduler ", name);
}
