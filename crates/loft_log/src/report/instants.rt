//! The instants of a scheduler: its batches with what they did.

ghost use Rattle.std.specs.Prelude.{◌++◌, [], ◌∷◌};
ghost use Rattle.loft_base.specs.Writing.{WritesTo};
ghost use Rattle.loft_history.specs.History.{log};
ghost use Rattle.loft_orders.specs.Text.{order_text};
ghost use Rattle.loft_orders.specs.Lines.{text_of, mark_word, ends_at, batch_lines, leave_line, leave_lines, instant_lines};
ghost use Rattle.loft_history.specs.Report.{instants_lines};

use super::history::batch_of;
use super::lines::{make_end_line, make_leaver_line, make_order_line};
use super::{ReportWriter, write_line};
use loft_base::{SchedId, Sink, WriteError};
use loft_instant_text::{are_in_order, ends_from};
use loft_orders::{Ended, InstantNote, Mark, Order, Sent};
use loft_value_text::LineBuffer;
use loft_world::World;

impl ReportWriter<'_> {
    /// Writes the instants of a scheduler: its batches in the history, each with its note.
    pub fn write_instants<S: Sink>(
        &self,
        world: &World,
        s: SchedId,
        notes: &[InstantNote],
        line: &mut LineBuffer,
        sink: &mut S,
    ) -> Result<(), WriteError>
        ensures { WritesTo S.written S.faults S.room S.by_lines sink.old sink.new result
            (text_of (instants_lines self.now.heads.now (log s world.now.history) notes.now)) }
    {
        let mut left = notes;
        for index in 0..world.length() {
            if let Some(batch) = batch_of(s, world.entry(index + 1)) {
                let Some((note, rest)) = left.split_first() else {
                    return Ok(());
                };
                self.write_instant(batch, note, line, sink)?;
                left = rest;
            }
        }
        Ok(())
    }

    /// Writes an instant: its batch, and what it did.
    fn write_instant<S: Sink>(
        &self,
        batch: &[Order],
        note: &InstantNote,
        line: &mut LineBuffer,
        sink: &mut S,
    ) -> Result<(), WriteError>
        ensures { WritesTo S.written S.faults S.room S.by_lines sink.old sink.new result
            (text_of (instant_lines self.now.heads.now batch.now note.now)) }
    {
        self.write_number("instant ", note.number, line, sink)?;
        self.write_batch(
            note.stopped.as_slice(),
            batch,
            note.marks.as_slice(),
            line,
            sink,
        )?;
        self.write_lines(note.acts.as_slice(), line, sink)?;
        self.write_leavers(note.sent.as_slice(), line, sink)?;
        self.write_lines(note.stands.as_slice(), line, sink)?;
        self.write_lines(note.changed.as_slice(), line, sink)
    }

    /// Writes the orders of a batch, each with its mark and the ends that it made.
    fn write_batch<S: Sink>(
        &self,
        stopped: &[Ended],
        batch: &[Order],
        marks: &[Mark],
        line: &mut LineBuffer,
        sink: &mut S,
    ) -> Result<(), WriteError>
        ensures { WritesTo S.written S.faults S.room S.by_lines sink.old sink.new result
            (text_of (batch_lines self.now.heads.now stopped.now 0 batch.now marks.now)) }
    {
        let in_order = are_in_order(stopped);
        let mut left = stopped;
        for index in 0..batch.len().min(marks.len()) {
            let (here, rest) = ends_from(index as u64, left, in_order);
            self.write_order(here, index, &batch[index], marks[index], line, sink)?;
            left = rest;
        }
        Ok(())
    }

    /// Writes an order of a batch and the ends that it made, which are among these.
    fn write_order<S: Sink>(
        &self,
        ends: &[Ended],
        index: usize,
        order: &Order,
        mark: Mark,
        line: &mut LineBuffer,
        sink: &mut S,
    ) -> Result<(), WriteError>
        ensures { WritesTo S.written S.faults S.room S.by_lines sink.old sink.new result
            (text_of ((mark_word mark ++ order_text self.now.heads.now order.now) ∷ ends_at self.now.heads.now index ends.now)) }
    {
        make_order_line(line, self.heads, mark, order);
        write_line(line, sink)?;
        self.write_ends(index as u64, ends, line, sink)
    }

    /// Writes the ends among these that an order of a batch made.
    fn write_ends<S: Sink>(
        &self,
        index: u64,
        ends: &[Ended],
        line: &mut LineBuffer,
        sink: &mut S,
    ) -> Result<(), WriteError>
        ensures { WritesTo S.written S.faults S.room S.by_lines sink.old sink.new result
            (text_of (ends_at self.now.heads.now index ends.now)) }
    {
        for ended in ends {
            self.write_end_at(index, *ended, line, sink)?;
        }
        Ok(())
    }

    /// Writes an end where the order with this index made it.
    fn write_end_at<S: Sink>(
        &self,
        index: u64,
        ended: Ended,
        line: &mut LineBuffer,
        sink: &mut S,
    ) -> Result<(), WriteError>
        ensures { WritesTo S.written S.faults S.room S.by_lines sink.old sink.new result
            (text_of (ends_at self.now.heads.now index (ended ∷ []))) }
    {
        if ended.index == index {
            make_end_line(line, self.heads, ended.thread, ended.end);
            write_line(line, sink)
        } else {
            Ok(())
        }
    }

    /// Writes who left.
    fn write_leavers<S: Sink>(
        &self,
        sents: &[Sent],
        line: &mut LineBuffer,
        sink: &mut S,
    ) -> Result<(), WriteError>
        ensures { WritesTo S.written S.faults S.room S.by_lines sink.old sink.new result
            (text_of (leave_lines self.now.heads.now sents.now)) }
    {
        for sent in sents {
            self.write_leaver(sent, line, sink)?;
        }
        Ok(())
    }

    /// Writes the thread that leaves, where an order moves one.
    fn write_leaver<S: Sink>(
        &self,
        sent: &Sent,
        line: &mut LineBuffer,
        sink: &mut S,
    ) -> Result<(), WriteError>
        ensures { WritesTo S.written S.faults S.room S.by_lines sink.old sink.new result
            (text_of (leave_line self.now.heads.now sent.now.to sent.now.order)) }
    {
        if let Order::Arrive(thread) = &sent.order {
            make_leaver_line(line, self.heads, thread.as_thread().id, sent.to);
            write_line(line, sink)
        } else {
            Ok(())
        }
    }
}
