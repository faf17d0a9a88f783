//! What the waits have to do with the passes of an instant. Each law is what the contract of an
//! empty function says.

ghost use Rattle.std.specs.Prelude.{◌≡◌, ◌<◌, ℕ, ℤ, Option, Some, false, length, slice_set};
ghost use Rattle.loft_base.specs.declared.ids.EventId.{EventId};
ghost use Rattle.loft_board.specs.Board.{Board, no_events, values as event_values, generate};
ghost use Rattle.loft_orders.specs.declared.thread.Wait.{Wait};
ghost use Rattle.loft_sense.specs.CanGo.{can_go};
ghost use Rattle.loft_waits.specs.Told.{Told, wait_at, ready_at, counts_of, no_counts};

/// Where the waits were told what the board has and which threads are known as ended, they say of a
/// thread that isn't suspended that it can go exactly where it can (`can_go`).
pub fn ready_is_can_go()
    ensures { (told : Told) (board : Board) (p : ℕ) (wait : Wait)
        → told.counts ≡ counts_of board → wait_at told p ≡ Some wait
        → ready_at told p ≡ can_go wait false board told.ended }
{}

/// The waits are told what the board has by `new` and by one call of `on_event` for each event that
/// is generated, with the number of its values after it.
pub fn counts_follow_the_board()
    ensures none { (n : ℕ) → counts_of (no_events n) ≡ no_counts n }
    ensures generate { (e : EventId) (v : Option ℤ) (board : Board) → e.0 < length board
        → counts_of (generate e v board)
        ≡ slice_set (counts_of board) e.0 (Some (length (event_values e (generate e v board)))) }
{}
