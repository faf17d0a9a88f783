//! What a report tells, as far as its grammar knows it: names stand for nobody yet.

use loft_base::Sequence;
use loft_tree::Name;

/// Choices, in the order in which they are made.
pub type Choices = Sequence<Choice>;

/// Who makes the next entry of a history, and of which kind: a line of a report's history
/// (docs/REPORT.md, "The report"). A name may be that of nobody.
#[derive(Drop)]
pub enum Choice {
    /// The scheduler of this name takes.
    Take(Name),
    /// The scheduler of this name gives.
    Give(Name),
    /// The worker of this number, counted from 0, picks a thread.
    Pick(u32),
    /// The worker of this number, counted from 0, posts an order.
    Post(u32),
    /// The client of this name gives an order.
    Client(Name),
}

/// The block of a scheduler.
#[derive(Drop)]
pub struct RawBlock {
    /// The name of the scheduler.
    pub name: Name,
    /// Each instant by its lines, each of which ends with its line feed.
    pub instants: Sequence<Sequence<u8>>,
    /// The lines of the final state, each with its line feed.
    pub last: Sequence<u8>,
}
