//! Where a block stands in the text of its report.

ghost use Rattle.std.specs.Prelude.{◌≡◌, ◌++◌, ◌∷◌, [], min, length};
ghost use Rattle.std.specs.Fmt.{decimal};
ghost use Rattle.std.specs.List.{flat_map};
ghost use Rattle.loft_value_text.specs.Appending.{Appends};
ghost use Rattle.loft_report_shape.specs.Text.{block_text, choice_text, head_text};
ghost use Rattle.loft_report_reader.specs.Answer.{report_in};
ghost use Rattle.loft_raw_block.specs.Offsets.{last_place};

use loft_base::Sequence;
use loft_report_reader::RawReport;
use loft_report_shape::{Choice, RawBlock};
use loft_value_text::{TextLength, TextWriter};

/// The line of a word and a number.
fn push_number_line<W: TextWriter>(text: &mut W, word: &str, number: u64)
    ensures { Appends W.is_whole W.kept W.extended text.old text.new
        (word.now ++ (decimal number ++ 10 ∷ [])) }
{
    text.text(word);
    text.number(number);
    text.byte(b'\n');
}

/// The line of a word and a name.
fn push_name_line<W: TextWriter>(text: &mut W, word: &str, name: &[u8])
    ensures { Appends W.is_whole W.kept W.extended text.old text.new
        (word.now ++ (name.now ++ 10 ∷ [])) }
{
    text.text(word);
    text.bytes(name);
    text.byte(b'\n');
}

/// The line of a choice.
fn push_choice<W: TextWriter>(text: &mut W, choice: &Choice)
    ensures { Appends W.is_whole W.kept W.extended text.old text.new (choice_text choice.now) }
{
    match choice {
        Choice::Take(name) => push_name_line(text, "take ", name.as_slice()),
        Choice::Give(name) => push_name_line(text, "give ", name.as_slice()),
        Choice::Pick(worker) => push_number_line(text, "pick ", u64::from(*worker)),
        Choice::Post(worker) => push_number_line(text, "post ", u64::from(*worker)),
        Choice::Client(name) => push_name_line(text, "client ", name.as_slice()),
    }
}

/// The lines of choices.
fn push_choices<W: TextWriter>(text: &mut W, choices: &[Choice])
    ensures { Appends W.is_whole W.kept W.extended text.old text.new (flat_map choice_text choices.now) }
{
    for choice in choices {
        push_choice(text, choice);
    }
}

/// The options and the choices of a report.
#[tactic(auto, using(crate::proofs::HeadLemmas::head_parts))]
fn push_head<W: TextWriter>(text: &mut W, r: &RawReport)
    ensures { Appends W.is_whole W.kept W.extended text.old text.new (head_text (report_in r.now)) }
{
    text.text("loft-report 1\n");
    push_number_line(text, "instants ", r.options.limits.instants);
    push_number_line(text, "budget ", r.options.limits.budget);
    push_number_line(text, "block ", r.options.limits.block);
    push_number_line(text, "workers ", u64::from(r.options.workers));
    push_number_line(text, "history ", r.choices.len() as u64);
    push_choices(text, r.choices.as_slice());
}

/// The texts of instants.
fn push_instants<W: TextWriter>(text: &mut W, instants: &[Sequence<u8>])
    ensures { Appends W.is_whole W.kept W.extended text.old text.new
        (flat_map (λ instant. instant) instants.now) }
{
    for instant in instants {
        text.bytes(instant.as_slice());
    }
}

/// The text of a block.
#[tactic(auto, using(crate::proofs::HeadLemmas::block_parts))]
fn push_block<W: TextWriter>(text: &mut W, block: &RawBlock)
    ensures { Appends W.is_whole W.kept W.extended text.old text.new (block_text block.now) }
{
    push_name_line(text, "scheduler ", block.name.as_slice());
    push_instants(text, block.instants.as_slice());
    text.bytes(block.last.as_slice());
}

/// The texts of blocks.
fn push_blocks<W: TextWriter>(text: &mut W, blocks: &[RawBlock])
    ensures { Appends W.is_whole W.kept W.extended text.old text.new
        (flat_map block_text blocks.now) }
{
    for block in blocks {
        push_block(text, block);
    }
}

/// How many bytes the options, the choices and these blocks have in the text of the report. Where there are more than the
/// largest number, that number. It takes no memory.
pub fn offset_after(r: &RawReport, blocks: &[RawBlock]) -> u64
    ensures { result ≡ min last_place
        (length (head_text (report_in r.now) ++ flat_map block_text blocks.now)) }
{
    let mut length = TextLength::new();
    push_head(&mut length, r);
    push_blocks(&mut length, blocks);
    length.count
}
