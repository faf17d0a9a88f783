//! The summary of a run.

ghost use Rattle.std.specs.Prelude.{◌≡◌, ◌+◌, cond, map, IfOk};
ghost use Rattle.loft_orders.specs.Lines.{text_of};
ghost use Rattle.loft_sense.specs.Tally.{capped};
ghost use Rattle.loft_value_text.specs.Buffer.{Adds};
ghost use Rattle.loft_summary.specs.Lines.{acts_in, all_acts, count_line, done_among, is_done, shared_text, summary_text, value_line};

use loft_base::NoMemory;
use loft_gen::{rounds_of, threads_of};
use loft_orders::{Act, End, FinalState, InstantNote};
use loft_value_text::LineBuffer;
use loft_world::{Finals, NoteList, Notes};
use std::alloc::Global;

/// Whether a thread ended at the end of its module.
fn is_done(act: &Act) -> bool
    ensures { result ≡ is_done act.now }
{
    match act {
        Act::End { end, .. } => matches!(end, End::Done),
        _ => false,
    }
}

/// A count, and one more where a thread ended so.
fn with_act(count: u64, act: &Act) -> u64
    ensures { result ≡ cond (is_done act.now) (capped (count + 1)) count }
{
    if is_done(act) {
        count.saturating_add(1)
    } else {
        count
    }
}

/// A count, and one more for each thread that ended so in an instant.
fn with_acts(before: u64, acts: &[Act]) -> u64
    ensures { result ≡ capped (before + done_among acts.now) }
{
    let mut count = before;
    for act in acts {
        count = with_act(count, act);
    }
    count
}

/// A count, and one more for each thread that ended so in these instants.
fn with_notes(before: u64, notes: &[InstantNote]) -> u64
    ensures { result ≡ capped (before + done_among (acts_in notes.now)) }
{
    let mut count = before;
    for note in notes {
        count = with_acts(count, note.acts.as_slice());
    }
    count
}

/// How many threads ended so in the instants of all schedulers.
fn done_ends(lists: &[NoteList]) -> u64
    ensures { result ≡ capped (done_among (all_acts lists.now)) }
{
    let mut count = 0;
    for notes in lists {
        count = with_notes(count, notes.as_slice());
    }
    count
}

/// The values of the variables of the scheduler with this number.
fn push_values(text: &mut LineBuffer, number: u64, values: &[i64])
    ensures { Adds text.old text.new (text_of (map (value_line number) values.now)) }
{
    for value in values {
        text.text("shared x");
        text.number(number);
        text.byte(b' ');
        text.signed(*value);
        text.byte(b'\n');
    }
}

/// The values of the variables of all schedulers.
fn push_shared(text: &mut LineBuffer, finals: &[FinalState])
    ensures { Adds text.old text.new (shared_text 0 finals.now) }
{
    for (number, last) in finals.iter().enumerate() {
        push_values(text, number as u64, last.shared.as_slice());
    }
}

/// A word, a number and the end of the line.
fn push_count(text: &mut LineBuffer, word: &str, number: u64)
    ensures { Adds text.old text.new (count_line word.now number) }
{
    text.text(word);
    text.number(number);
    text.byte(b'\n');
}

/// The summary of a run of the source of a number (docs/GENERATED.md, "The summary"), which left these
/// notes and last states.
///
/// # Errors
///
/// Out of memory for the text.
pub fn summary_text(
    alloc: Global,
    k: u32,
    notes: &Notes,
    finals: &Finals,
) -> Result<Vec<u8>, NoMemory>
    ensures { IfOk result (λ text. text.items ≡ summary_text k notes.now.of finals.now.of) }
{
    let mut text = LineBuffer::new(alloc);
    push_count(&mut text, "gen ", u64::from(k));
    text.text("schedulers 4\n");
    push_count(&mut text, "threads ", u64::from(threads_of(k)));
    push_count(&mut text, "rounds ", u64::from(rounds_of(k)));
    push_shared(&mut text, finals.of.as_slice());
    push_count(&mut text, "ended ", done_ends(notes.of.as_slice()));
    if text.is_whole {
        Ok(text.text)
    } else {
        Err(NoMemory)
    }
}
