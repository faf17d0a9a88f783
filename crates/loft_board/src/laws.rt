//! Laws of boards. Each is what the contract of an empty function says.

ghost use Rattle.std.specs.Prelude.{◌≡◌, ◌≢◌, ◌<◌, ◌++◌, ℕ, ℤ, List, Option, IsTrue, length};
ghost use Rattle.loft_base.specs.declared.ids.EventId.{EventId};
ghost use Rattle.loft_board.specs.Board.{Board, no_events, find, has, values, generate, generate_all, values_for};

/// Whatever is generated afterwards, an event that is present stays present, and the values of an
/// event stay the first ones that it has.
pub fn events_stay_present()
    ensures present { (events : List (EventId × Option ℤ)) (e : EventId) (board : Board)
        → IsTrue (has e board) → IsTrue (has e (generate_all events board)) }
    ensures values { (events : List (EventId × Option ℤ)) (e : EventId) (board : Board)
        → (more : List ℤ) × (values e (generate_all events board) ≡ values e board ++ more) }
{}

/// An event of the board has the values that were generated with it, in the order in which they
/// came, after those that it had.
pub fn values_come_in_order()
    ensures { (events : List (EventId × Option ℤ)) (e : EventId) (board : Board)
        → e.0 < length board
        → values e (generate_all events board) ≡ values e board ++ values_for e events }
{}

/// An event that is generated leaves each other one as it is.
pub fn events_are_apart()
    ensures { (e other : EventId) (v : Option ℤ) (board : Board)
        → other.0 ≢ e.0 → find other (generate e v board) ≡ find other board }
{}

/// A board keeps its number of events, whatever is generated and as it is reset.
pub fn number_of_events_stays()
    ensures no_events { (n : ℕ) → length (no_events n) ≡ n }
    ensures generate { (e : EventId) (v : Option ℤ) (board : Board)
        → length (generate e v board) ≡ length board }
{}
