//! A scheduler between two instants.

ghost use Rattle.std.specs.Prelude.{◌≡◌, IfOk};
ghost use Rattle.loft_instant.specs.States.{first_machine};

use loft_base::{NoMemory, SchedId, Sequence};
use loft_board::Board;
use loft_ended::Ended;
use loft_instant::shared_values;
use loft_line::Line;
use loft_orders::Numbers;
use loft_sense::Tally;
use loft_tally::first_tally;
use loft_tree::Heads;
use std::alloc::Global;

/// A scheduler between two instants.
#[derive(Drop)]
pub struct State {
    /// Its threads, with their waits.
    pub line: Line,
    pub shared: Numbers,
    /// The shared values before the last instant; the next one uses their room.
    pub before: Numbers,
    /// The threads known as ended.
    pub known: Ended,
    /// No event is present between two instants; the room of their values is kept.
    pub board: Board,
    /// The creates that it has sent.
    pub made: u64,
    /// What it has used of its bounds.
    pub tally: Tally,
}

impl State {
    ghost use Rattle.loft_line_engine.specs.States.{machine_with, IsClosed};

    /// A scheduler before its first instant, where the program has these declarations and so many
    /// events.
    pub fn first(
        alloc: Global,
        scheduler: SchedId,
        heads: &Heads,
        events: u32,
        budget: u64,
    ) -> Result<State, NoMemory>
        ensures machine { IfOk result (λ s. machine_with scheduler s
            ≡ first_machine heads.now scheduler) }
        ensures closed { IfOk result (λ s. IsClosed events budget 0 s) }
    {
        let line = Line::new(alloc, events, budget)?;
        let board = Board::new(alloc, events)?;
        let shared = shared_values(alloc, scheduler, heads.shared.as_slice())?;
        Ok(State {
            line,
            shared,
            before: Sequence::new(alloc),
            known: Ended::new(alloc),
            board,
            made: 0,
            tally: first_tally(heads, scheduler),
        })
    }
}
