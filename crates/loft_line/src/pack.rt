//! Places of threads that have gone are given up.

ghost use Rattle.std.specs.Prelude.{◌≡◌, ◌+◌, ◌*◌, ◌<◌, ◌≤◌, length, take, OnOk};

use crate::line::Line;
use crate::slots::{enter, exchange, leave};
use loft_base::NoMemory;

/// So many places more than twice the linked threads may be there before they are given up.
const SPARE: usize = 64;

impl Line {
    ghost use Rattle.loft_line.specs.Line.{runners_in, standings_in, AreEmpty, IsIdle, HasMoved, KeepsTold};

    /// The thread at a position goes to an empty place before it.
    fn move_to(&mut self, to: usize, pos: usize) -> Result<(), NoMemory>
        requires idle { IsIdle self.old }
        requires order { to < pos }
        requires within { pos < length self.old.slots.items }
        requires empty { AreEmpty to pos (runners_in self.old) }
        ensures { OnOk result (HasMoved to pos self.old self.new) }
    {
        let thread = self.slots[pos].thread.id;
        leave(&mut self.slots, &mut self.waits, pos);
        exchange(&mut self.slots, pos, to);
        enter(&mut self.slots, &mut self.waits, to)?;
        self.finder.add(thread, to);
        self.finder.remove(thread, pos);
        Ok(())
    }

    /// The thread at a position goes to an empty place before it, where there is one.
    fn move_down(&mut self, to: usize, pos: usize) -> Result<(), NoMemory>
        requires idle { IsIdle self.old }
        requires order { to ≤ pos }
        requires within { pos < length self.old.slots.items }
        requires empty { AreEmpty to pos (runners_in self.old) }
        ensures { OnOk result (HasMoved to pos self.old self.new) }
    {
        if to < pos {
            return self.move_to(to, pos);
        }
        Ok(())
    }

    /// So many places are left, where those after them are empty.
    fn cut(&mut self, len: usize)
        requires idle { IsIdle self.old }
        requires order { len ≤ length self.old.slots.items }
        requires empty { AreEmpty len (length self.old.slots.items) (runners_in self.old) }
        ensures idle { IsIdle self.new }
        ensures linked { standings_in (runners_in self.new) ≡ standings_in (runners_in self.old) }
        ensures told { KeepsTold self.old self.new }
        ensures places { length self.new.slots.items ≡ len }
        ensures first { runners_in self.new ≡ take len (runners_in self.old) }
    {
        self.slots.truncate(len);
        self.waits.truncate(len);
        self.ran.truncate(len);
    }

    /// The threads move together, in their order, so that no place is empty.
    fn pack(&mut self) -> Result<(), NoMemory>
        requires idle { IsIdle self.old }
        ensures idle { OnOk result (IsIdle self.new) }
        ensures linked { OnOk result (standings_in (runners_in self.new)
            ≡ standings_in (runners_in self.old)) }
        ensures told { OnOk result (KeepsTold self.old self.new) }
        ensures places { OnOk result (length self.new.slots.items
            ≡ length (standings_in (runners_in self.new))) }
    {
        let mut next = 0;
        for pos in 0..self.slots.len() {
            if self.slots[pos].is_held() {
                self.move_down(next, pos)?;
                next += 1;
            }
        }
        self.cut(next);
        Ok(())
    }

    /// Where there are far more places than linked threads, the threads move together.
    pub(crate) fn make_room(&mut self) -> Result<(), NoMemory>
        requires idle { IsIdle self.old }
        ensures idle { OnOk result (IsIdle self.new) }
        ensures linked { OnOk result (standings_in (runners_in self.new)
            ≡ standings_in (runners_in self.old)) }
        ensures told { OnOk result (KeepsTold self.old self.new) }
        ensures places { OnOk result (length self.new.slots.items
            ≤ 2 * length (standings_in (runners_in self.new)) + 64) }
    {
        let places = self.slots.len();
        let linked = self.len();
        if places.saturating_sub(linked).saturating_sub(linked) > SPARE {
            return self.pack();
        }
        Ok(())
    }
}
