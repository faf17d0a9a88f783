//! The history of a report: its choices, and the batches of a scheduler in it.

ghost use Rattle.std.specs.Prelude.{◌≡◌, ◌++◌, [], ◌∷◌, map};
ghost use Rattle.std.specs.Option.{option_to_list, option_map};
ghost use Rattle.loft_base.specs.Writing.{WritesTo};
ghost use Rattle.loft_history.specs.History.{choice_of, log};
ghost use Rattle.loft_orders.specs.Lines.{text_of};
ghost use Rattle.loft_history.specs.Report.{choice_line};

use super::{ReportWriter, write_line};
use loft_base::{SchedId, Sink, WriteError};
use loft_choices::make_choice_line;
use loft_orders::{Entry, Order};
use loft_value_text::LineBuffer;
use loft_world::World;

/// The batch that the scheduler takes by this entry, if it does.
pub fn batch_of(s: SchedId, entry: &Entry) -> Option<&[Order]>
    ensures { log s (entry.now ∷ []) ≡ option_to_list (option_map (λ batch. batch.now) result) }
{
    match entry {
        Entry::Take { s: taker, batch } if s == *taker => Some(batch.as_slice()),
        _ => None,
    }
}

impl ReportWriter<'_> {
    /// Writes the choices of a history.
    pub fn write_choices<S: Sink>(
        &self,
        world: &World,
        line: &mut LineBuffer,
        sink: &mut S,
    ) -> Result<(), WriteError>
        ensures { WritesTo S.written S.faults S.room S.by_lines sink.old sink.new result
            (text_of (map (choice_line self.now.heads.now) (map choice_of world.now.history))) }
    {
        for index in 0..world.length() {
            self.write_choice(world.entry(index + 1), line, sink)?;
        }
        Ok(())
    }

    /// Writes the choice of an entry.
    fn write_choice<S: Sink>(
        &self,
        entry: &Entry,
        line: &mut LineBuffer,
        sink: &mut S,
    ) -> Result<(), WriteError>
        ensures { WritesTo S.written S.faults S.room S.by_lines sink.old sink.new result
            (choice_line self.now.heads.now (choice_of entry.now) ++ 10 ∷ []) }
    {
        make_choice_line(line, self.heads, entry);
        write_line(line, sink)
    }
}
