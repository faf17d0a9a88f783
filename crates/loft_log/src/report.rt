//! Writes the report of a run.

mod history;
mod instants;
mod left;
mod lines;

ghost use Rattle.std.specs.Prelude.{◌≡◌, ◌<◌, ◌≤◌, ◌++◌, [], ◌∷◌, ℕ, List, length, map, OnOk, OnErr, IfOk, IsErrOf, IsTrue};
ghost use Rattle.std.specs.Fmt.{decimal};
ghost use Rattle.loft_base.specs.Outside.{Rose, appended, GrowsByPrefix};
ghost use Rattle.loft_sense.specs.Heads.{scheduler, shared_of};
ghost use Rattle.loft_history.specs.History.{choice_of};
ghost use Rattle.loft_orders.specs.Text.{scheduler_name};
ghost use Rattle.loft_orders.specs.Lines.{text_of};
ghost use Rattle.loft_history.specs.Report.{head_lines, standing_line, shared_lines, final_lines, schedulers_from};
ghost use Rattle.loft_value_text.specs.Buffer.{Holds};
ghost use Rattle.loft_log.specs.WorldReport.{world_block, world_blocks, world_report};
ghost use Rattle.loft_base.specs.Writing.{WritesTo};

use self::lines::{
    make_line, make_number_line, make_scheduler_line, make_standing_line, make_text_line,
    make_value_line,
};
use loft_base::{NoMemory, RunOptions, SchedId, Sink, WriteError, write_lines};
use loft_instant_text::InOneLine;
use loft_orders::{FinalState, InstantNote, Standing};
use loft_tree::Heads;
use loft_value_text::LineBuffer;
use loft_world::{Finals, NoteList, Notes, World};
use std::alloc::Global;

/// Writes the report of a run: of its history, of what was kept of its instants, and of how its
/// schedulers stand in the end (docs/REPORT.md, "The report"). The world is of these declarations.
///
/// `Sink` comes where the sink failed, and its count of faults rose. `NoMemory` comes where it is out of
/// memory for a line, and where so many schedulers or orders would be. In both cases a prefix of the report was
/// written. Each line is written by a `put` of its own.
pub fn write_report<S: Sink>(
    alloc: Global,
    heads: &Heads,
    options: &RunOptions,
    world: &World,
    notes: &Notes,
    finals: &Finals,
    sink: &mut S,
) -> Result<(), WriteError>
    requires heads { world.now.heads ≡ heads.now }
    ensures ok { OnOk result (S.written sink.new ≡ appended (S.written sink.old)
        (world_report heads.now options.now world.now.history notes.now.of finals.now.of)) }
    ensures failed { OnErr result (GrowsByPrefix (S.written sink.old) (S.written sink.new)
        (world_report heads.now options.now world.now.history notes.now.of finals.now.of)) }
    ensures sink { IsErrOf result WriteError.Sink → Rose (S.faults sink.old) (S.faults sink.new) }
    ensures never_falls { S.faults sink.old ≤ S.faults sink.new }

    // The sink is blamed only for a report that has more bytes than it was known to take.
    ensures blamed { IsErrOf result WriteError.Sink → S.room sink.old < length
        (world_report heads.now options.now world.now.history notes.now.of finals.now.of) }
    ensures no_fault { length (world_report heads.now options.now world.now.history notes.now.of finals.now.of)
        ≤ S.room sink.old → S.faults sink.new ≡ S.faults sink.old }
    ensures by_lines { IsTrue (S.by_lines sink.old) → IsTrue (S.by_lines sink.new) }
{
    let writer = ReportWriter { heads };
    let mut line = LineBuffer::new(alloc);
    writer.write_parts(options, world, notes, finals, &mut line, sink)
}

/// The scheduler with this index. There is no memory for schedulers past the last number.
fn scheduler_at(index: usize) -> Result<SchedId, NoMemory>
    ensures { IfOk result (λ s. s ≡ scheduler index) }
{
    match u32::try_from(index) {
        Ok(number) => Ok(SchedId(number)),
        Err(_) => Err(NoMemory),
    }
}

/// Writes the parts of a report of a program with these heads. Each line is made in the same buffer, whatever stood there,
/// and goes to the sink whole.
#[derive(Drop)]
struct ReportWriter<'a> {
    heads: &'a Heads,
}

impl ReportWriter<'_> {
    /// Writes the parts of a report.
    fn write_parts<S: Sink>(
        &self,
        options: &RunOptions,
        world: &World,
        notes: &Notes,
        finals: &Finals,
        line: &mut LineBuffer,
        sink: &mut S,
    ) -> Result<(), WriteError>
        requires heads { world.now.heads ≡ self.now.heads.now }
        ensures { WritesTo S.written S.faults S.room S.by_lines sink.old sink.new result
            (world_report self.now.heads.now options.now world.now.history notes.now.of finals.now.of) }
    {
        self.write_head(options, world, line, sink)?;
        self.write_blocks(world, notes.of.as_slice(), finals.of.as_slice(), line, sink)?;
        self.write_left(world, line, sink)?;
        self.write_text("end", line, sink)
    }

    /// Writes the options and the choices.
    fn write_head<S: Sink>(
        &self,
        options: &RunOptions,
        world: &World,
        line: &mut LineBuffer,
        sink: &mut S,
    ) -> Result<(), WriteError>
        ensures { WritesTo S.written S.faults S.room S.by_lines sink.old sink.new result
            (text_of (head_lines self.now.heads.now options.now (map choice_of world.now.history))) }
    {
        self.write_text("loft-report 1", line, sink)?;
        self.write_number("instants ", options.limits.instants, line, sink)?;
        self.write_number("budget ", options.limits.budget, line, sink)?;
        self.write_number("block ", options.limits.block, line, sink)?;
        self.write_number("workers ", u64::from(options.workers), line, sink)?;
        self.write_number("history ", world.length(), line, sink)?;
        self.write_choices(world, line, sink)
    }

    /// Writes the blocks of the schedulers for which there are notes and a last state.
    fn write_blocks<S: Sink>(
        &self,
        world: &World,
        notes: &[NoteList],
        finals: &[FinalState],
        line: &mut LineBuffer,
        sink: &mut S,
    ) -> Result<(), WriteError>
        ensures { WritesTo S.written S.faults S.room S.by_lines sink.old sink.new result
            (text_of (world_blocks self.now.heads.now world.now.history
            (schedulers_from 0 self.now.heads.now.schedulers) notes.now finals.now)) }
    {
        let schedulers = self.heads.schedulers.len();
        for index in 0..schedulers.min(notes.len()).min(finals.len()) {
            let s = scheduler_at(index)?;
            let last = &finals[index];
            self.write_block(world, s, notes[index].as_slice(), last, line, sink)?;
        }
        Ok(())
    }

    /// Writes a scheduler's block.
    fn write_block<S: Sink>(
        &self,
        world: &World,
        s: SchedId,
        notes: &[InstantNote],
        last: &FinalState,
        line: &mut LineBuffer,
        sink: &mut S,
    ) -> Result<(), WriteError>
        ensures { WritesTo S.written S.faults S.room S.by_lines sink.old sink.new result
            (text_of (world_block self.now.heads.now world.now.history s notes.now last.now)) }
    {
        self.write_scheduler("scheduler ", s, line, sink)?;
        self.write_instants(world, s, notes, line, sink)?;
        self.write_final(s, last, line, sink)
    }

    /// Writes the scheduler's last state.
    fn write_final<S: Sink>(
        &self,
        s: SchedId,
        last: &FinalState,
        line: &mut LineBuffer,
        sink: &mut S,
    ) -> Result<(), WriteError>
        ensures { WritesTo S.written S.faults S.room S.by_lines sink.old sink.new result
            (text_of (final_lines self.now.heads.now s last.now.linked last.now.shared)) }
    {
        let linked = last.linked.as_slice();
        self.write_number("state ", linked.len() as u64, line, sink)?;
        self.write_standings(linked, line, sink)?;
        self.write_shared(s, last.shared.as_slice(), line, sink)
    }

    /// Writes the scheduler's shared variables with their values.
    fn write_shared<S: Sink>(
        &self,
        s: SchedId,
        values: &[i64],
        line: &mut LineBuffer,
        sink: &mut S,
    ) -> Result<(), WriteError>
        ensures { WritesTo S.written S.faults S.room S.by_lines sink.old sink.new result
            (text_of (shared_lines self.now.heads.now
            (shared_of self.now.heads.now s) values.now)) }
    {
        let mut left = values;
        for head in self.heads.shared.as_slice() {
            if s.0 == head.scheduler.0 {
                let Some((value, rest)) = left.split_first() else {
                    return Ok(());
                };
                make_value_line(line, head.name.as_slice(), *value);
                write_line(line, sink)?;
                left = rest;
            }
        }
        Ok(())
    }

    /// Writes a line for each item.
    fn write_lines<T: InOneLine, S: Sink>(
        &self,
        items: &[T],
        line: &mut LineBuffer,
        sink: &mut S,
    ) -> Result<(), WriteError>
        ensures { WritesTo S.written S.faults S.room S.by_lines sink.old sink.new result
            (text_of (map (T.text self.now.heads.now) items.now)) }
    {
        for item in items {
            make_line(line, self.heads, item);
            write_line(line, sink)?;
        }
        Ok(())
    }

    /// Writes a line for each thread that is linked in the end.
    fn write_standings<S: Sink>(
        &self,
        linked: &[Standing],
        line: &mut LineBuffer,
        sink: &mut S,
    ) -> Result<(), WriteError>
        ensures { WritesTo S.written S.faults S.room S.by_lines sink.old sink.new result
            (text_of (map (standing_line self.now.heads.now) linked.now)) }
    {
        for standing in linked {
            make_standing_line(line, self.heads, standing);
            write_line(line, sink)?;
        }
        Ok(())
    }

    /// Writes the line of a text.
    fn write_text<S: Sink>(
        &self,
        text: &str,
        line: &mut LineBuffer,
        sink: &mut S,
    ) -> Result<(), WriteError>
        ensures { WritesTo S.written S.faults S.room S.by_lines sink.old sink.new result
            (text.now ++ 10 ∷ []) }
    {
        make_text_line(line, text);
        write_line(line, sink)
    }

    /// Writes the line of a word and a number.
    fn write_number<S: Sink>(
        &self,
        word: &str,
        number: u64,
        line: &mut LineBuffer,
        sink: &mut S,
    ) -> Result<(), WriteError>
        ensures { WritesTo S.written S.faults S.room S.by_lines sink.old sink.new result
            ((word.now ++ decimal number) ++ 10 ∷ []) }
    {
        make_number_line(line, word, number);
        write_line(line, sink)
    }

    /// Writes the line of a word and the name of a scheduler.
    fn write_scheduler<S: Sink>(
        &self,
        word: &str,
        s: SchedId,
        line: &mut LineBuffer,
        sink: &mut S,
    ) -> Result<(), WriteError>
        ensures { WritesTo S.written S.faults S.room S.by_lines sink.old sink.new result
            ((word.now ++ scheduler_name self.now.heads.now s) ++ 10 ∷ []) }
    {
        make_scheduler_line(line, self.heads, word, s);
        write_line(line, sink)
    }
}

/// Writes a line and its line feed, if memory was enough for the line.
fn write_line<S: Sink>(line: &mut LineBuffer, sink: &mut S) -> Result<(), WriteError>
    ensures { (text : List ℕ) → Holds line.old text
        → WritesTo S.written S.faults S.room S.by_lines sink.old sink.new result (text ++ 10 ∷ []) }
{
    line.byte(b'\n');
    write_lines(line.whole()?, sink)
}
