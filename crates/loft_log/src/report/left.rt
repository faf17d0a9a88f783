//! What is left over: the orders that still wait, scheduler by scheduler.

ghost use Rattle.std.specs.Prelude.{◌≡◌, ◌+◌, map, length, IfOk};
ghost use Rattle.loft_base.specs.Writing.{WritesTo};
ghost use Rattle.loft_orders.specs.Lines.{text_of};
ghost use Rattle.loft_history.specs.Report.{left_line, left_part};
ghost use Rattle.loft_log.specs.WorldReport.{world_left};

use super::lines::make_left_order_line;
use super::{ReportWriter, scheduler_at, write_line};
use loft_base::{NoMemory, SchedId, Sink, WriteError};
use loft_orders::Order;
use loft_value_text::LineBuffer;
use loft_world::World;

impl ReportWriter<'_> {
    /// Writes how many orders are left over, and then these.
    pub fn write_left<S: Sink>(
        &self,
        world: &World,
        line: &mut LineBuffer,
        sink: &mut S,
    ) -> Result<(), WriteError>
        requires heads { world.now.heads ≡ self.now.heads.now }
        ensures { WritesTo S.written S.faults S.room S.by_lines sink.old sink.new result
            (text_of (left_part (world_left self.now.heads.now world.now.history))) }
    {
        let count = self.count_left(world)?;
        self.write_number("left ", count, line, sink)?;
        self.write_waiting(world, line, sink)
    }

    /// How many orders are left over. There is no memory for more than the last number.
    fn count_left(&self, world: &World) -> Result<u64, NoMemory>
        requires heads { world.now.heads ≡ self.now.heads.now }
        ensures { IfOk result (λ count. count ≡ length (world_left self.now.heads.now world.now.history)) }
    {
        let mut count: u64 = 0;
        for index in 0..self.heads.schedulers.len() {
            let s = scheduler_at(index)?;
            count = add(count, world.waiting(s) as u64)?;
        }
        Ok(count)
    }

    /// Writes the orders that wait for schedulers.
    fn write_waiting<S: Sink>(
        &self,
        world: &World,
        line: &mut LineBuffer,
        sink: &mut S,
    ) -> Result<(), WriteError>
        requires heads { world.now.heads ≡ self.now.heads.now }
        ensures { WritesTo S.written S.faults S.room S.by_lines sink.old sink.new result
            (text_of (world_left self.now.heads.now world.now.history)) }
    {
        for index in 0..self.heads.schedulers.len() {
            let s = scheduler_at(index)?;
            self.write_left_orders(s, world.left(s).as_slice(), line, sink)?;
        }
        Ok(())
    }

    /// Writes the orders that are left over at a scheduler.
    fn write_left_orders<S: Sink>(
        &self,
        s: SchedId,
        orders: &[Order],
        line: &mut LineBuffer,
        sink: &mut S,
    ) -> Result<(), WriteError>
        ensures { WritesTo S.written S.faults S.room S.by_lines sink.old sink.new result
            (text_of (map (left_line self.now.heads.now s) orders.now)) }
    {
        for order in orders {
            make_left_order_line(line, self.heads, s, order);
            write_line(line, sink)?;
        }
        Ok(())
    }
}

/// A sum, where there is memory for so many.
fn add(a: u64, b: u64) -> Result<u64, NoMemory>
    ensures { IfOk result (λ sum. sum ≡ a + b) }
{
    match a.checked_add(b) {
        Some(sum) => Ok(sum),
        None => Err(NoMemory),
    }
}
