//! Each public function once, with ample memory.

ghost use Rattle.std.specs.Prelude.{◌≡◌, ◌<◌, length, IfOk};

use loft_base::{EventId, NoMemory};
use loft_board::{
    Board, events_are_apart, events_stay_present, number_of_events_stays, values_come_in_order,
};
use std::alloc::Global;

/// Takes what may go to another thread and be shared among threads.
fn crosses_threads<T: Send + Sync>(_value: &T) {}

const FIRST: EventId = EventId(0);

const SECOND: EventId = EventId(1);

const THIRD: EventId = EventId(2);

/// A board of three events: the first is present without a value, the third with two.
fn three_events(alloc: Global) -> Result<Board, NoMemory>
    ensures { IfOk result (λ board. length board ≡ 3) }
{
    let mut board = Board::new(alloc, 3)?;
    board.generate(FIRST);
    board.generate_value(alloc, THIRD, 7)?;
    board.generate_value(alloc, THIRD, i64::MIN)?;
    board.generate(THIRD);
    Ok(board)
}

/// Whether an event is present, how many values it has, and its first three.
type Seen = (bool, usize, [Option<i64>; 3]);

/// An event that isn't present.
const ABSENT: Seen = (false, 0, [None, None, None]);

/// What a board says of an event.
fn seen(board: &Board, e: EventId) -> Seen
    requires { e.0 < length board.now }
{
    let values = [board.value(e, 0), board.value(e, 1), board.value(e, 2)];
    (board.has(e), board.count(e), values)
}

/// How many events a board has, and what it says of three.
fn seen_of_three(alloc: Global) -> Result<(usize, [Seen; 3]), NoMemory> {
    let board = three_events(alloc)?;
    crosses_threads(&board);
    let all = [
        seen(&board, FIRST),
        seen(&board, SECOND),
        seen(&board, THIRD),
    ];
    Ok((board.events(), all))
}

/// What is said of them.
static SEEN: [Seen; 3] = [
    (true, 0, [None, None, None]),
    ABSENT,
    (true, 2, [Some(7), Some(i64::MIN), None]),
];

#[test]
fn events_with_and_without_values(rt: HostRuntime) {
    assert_eq!(rt; seen_of_three(rt.alloc()), Ok((3, SEEN)));
}

/// What a board says, once it is reset, of the first event and the third, and of the third with one
/// more value.
fn seen_after_reset(alloc: Global) -> Result<[Seen; 3], NoMemory> {
    let mut board = three_events(alloc)?;
    board.reset();
    let (first, third) = (seen(&board, FIRST), seen(&board, THIRD));
    board.generate_value(alloc, THIRD, 2)?;
    Ok([first, third, seen(&board, THIRD)])
}

/// What is said of them.
static SEEN_AFTER_RESET: [Seen; 3] = [ABSENT, ABSENT, (true, 1, [Some(2), None, None])];

#[test]
fn the_next_instant_begins_without_events(rt: HostRuntime) {
    assert_eq!(rt; seen_after_reset(rt.alloc()), Ok(SEEN_AFTER_RESET));
}

#[test]
fn laws() {
    events_stay_present();
    values_come_in_order();
    events_are_apart();
    number_of_events_stays();
}
