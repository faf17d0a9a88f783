//! The parts of a report. Each begins with one of a set of spellings, and stands for all that it brings.

use crate::word::Word;

/// What a number is for, which tells its range.
#[derive(Clone, Copy)]
pub enum NumberKind {
    /// How many instants a scheduler makes at most.
    Instants,
    /// How many steps a thread makes at most in an instant.
    Budget,
    /// How many steps an unlinked block makes at most.
    Block,
    /// How many worker threads there are.
    Workers,
    /// How many choices follow.
    History,
    /// The worker that picks, counted from 0.
    Pick,
    /// The worker that posts, counted from 0.
    Post,
    /// A stop of a module, below 2^32.
    Stop,
    /// How many threads stand in a final state.
    States,
    /// How many orders are left over.
    Left,
    /// Any number that isn't negative.
    Count,
    /// Any number.
    Any,
}

/// What a name is for.
#[derive(Clone, Copy)]
pub enum NameRole {
    /// The scheduler that takes.
    Take,
    /// The scheduler that gives.
    Give,
    /// The client that gives an order.
    Client,
    /// The scheduler whose block begins.
    Block,
    /// A name in a line that is kept as it stands.
    Other,
}

/// Which lines may come in a block.
#[derive(Clone, Copy)]
pub enum Stage {
    /// The block has no instant yet.
    Fresh,
    /// Orders, or what comes after them.
    Batch,
    /// The same, and the end of the thread that the last order ended.
    Ordered,
    /// Acts, or what comes after them.
    Acts,
    /// Threads that leave, or what comes after them.
    Leaving,
    /// Threads that stand, or what comes after them.
    Standing,
    /// Shared variables, a further instant or the final state.
    Changed,
}

/// Where the bytes of a report are kept.
#[derive(Clone, Copy)]
pub enum Section {
    /// They aren't kept, as what they tell is.
    Told,
    /// In the last instant of the last block.
    Instant,
    /// In the final state of the last block.
    Final,
    /// In the left-over part.
    Left,
}

/// A part of a report.
#[derive(Clone, Copy)]
pub enum Part {
    /// A word that alone may stand there.
    Fixed(Word),
    /// This byte.
    Sign(u8),
    /// A number.
    Number(NumberKind),
    /// A name.
    Name(NameRole),
    /// The part of an id before its dot.
    Maker,
    /// A number or an id.
    Value,
    /// After `(`: values with commas between them, and `)`.
    FirstValue,
    /// After a value: further ones, and `)`.
    MoreValues,
    /// After `[`: counts with commas between them, and `]`.
    FirstCount,
    /// After a count: further ones, and `]`.
    MoreCounts,
    /// A number, or `-`.
    Limit,
    /// After an event of a `select`: further ones, and a blank.
    MoreEvents,
    /// After an event that is sent: its value if it has one, and the line's end.
    Sent,
    /// A name, or `unlinked`.
    Goal,
    /// What was printed, and the line's end.
    Text,
    /// After a frame: further ones, and the line's end.
    MoreFrames,
    /// An order, to the line's end.
    Order,
    /// A wait, and a blank.
    Wait,
    /// Why a thread ended, to the line's end.
    Reason,
    /// So many choices, and then the blocks.
    Choices(u64),
    /// The lines of a block to its final state, and all that comes then.
    Lines(Stage),
    /// So many threads of a final state, its shared variables, and then the further blocks.
    States(u64),
    /// So many orders that are left over, and the end.
    Left(u64),
    /// The line's end with which a report ends.
    Close,
}
