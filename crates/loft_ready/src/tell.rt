//! What the waits are told of a board, and of ends.

ghost use Rattle.std.specs.Prelude.{◌≡◌, ◌≤◌, ◌++◌, [], ◌∷◌, OnOk, drop, length};
ghost use Rattle.loft_board.specs.Board.{Board as BoardValue, generate_all};
ghost use Rattle.loft_sense.specs.LawWords.{generated_in};
ghost use Rattle.loft_waits.specs.Told.{counts_of};
ghost use Rattle.loft_ready.specs.Telling.{told};

use loft_base::{NoMemory, ThreadId};
use loft_board::Board;
use loft_orders::Act;
use loft_waits::Waits;
use std::alloc::Global;

/// The items from an index on.
pub fn from<T>(items: &[T], index: usize) -> &[T]
    requires { index ≤ length items.now }
    ensures { result.now ≡ drop index items.now }
{
    items.split_at(index).1
}

/// An event that an act has generated, by this board.
#[tactic(auto, using(crate::proofs::TellLemmas::set_beyond))]
fn tell_act(waits: &mut Waits, board: &Board, act: &Act)
    requires { length waits.old.counts ≡ length board.now }
    ensures { waits.new ≡ record waits.old {
      counts = told board.now (generated_in (act.now ∷ [])) waits.old.counts;
    } }
{
    if let Act::Gen {
        thread: _,
        event,
        value: _,
    } = act
    {
        if (event.0 as usize) < board.events() {
            waits.on_event(*event, board.count(*event));
        }
    }
}

/// Each event that acts have generated, by this board.
#[tactic(auto, using(crate::proofs::TellLemmas::told_step, crate::proofs::TellLemmas::told_length))]
fn tell_each(waits: &mut Waits, board: &Board, acts: &[Act])
    requires { length waits.old.counts ≡ length board.now }
    ensures { waits.new ≡ record waits.old {
      counts = told board.now (generated_in acts.now) waits.old.counts;
    } }
{
    for act in acts {
        tell_act(waits, board, act);
    }
}

/// A board, where the waits were told the one from which these acts have made it.
pub fn tell_acts(waits: &mut Waits, board: &Board, acts: &[Act])
    requires { (before : BoardValue) × (waits.old.counts ≡ counts_of before)
        × (board.now ≡ generate_all (generated_in acts.now) before) }
    ensures { waits.new ≡ record waits.old { counts = counts_of board.now } }
{
    tell_each(waits, board, acts);
}

/// Threads that have ended.
pub fn tell_ends(alloc: Global, waits: &mut Waits, ends: &[ThreadId]) -> Result<(), NoMemory>
    ensures { OnOk result (waits.new ≡ record waits.old { ended = waits.old.ended ++ ends.now }) }
{
    for thread in ends {
        waits.on_ended(alloc, *thread)?;
    }
    Ok(())
}
