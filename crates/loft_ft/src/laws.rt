//! Laws of receipts. Each is what the contract of an empty function says.

ghost use Rattle.std.specs.Prelude.{◌≡◌, ◌<◌, ◌++◌, ◌∷◌, [], ℕ, List, map, length};
ghost use Rattle.std.specs.List.{All};
ghost use Rattle.loft_base.specs.declared.ids.EventId.{EventId};
ghost use Rattle.loft_tree.specs.declared.heads.Heads.{Heads};
ghost use Rattle.loft_orders.specs.declared.entry.Actor.TheVariants.{Client};
ghost use Rattle.loft_orders.specs.declared.entry.Entry.{Entry};
ghost use Rattle.loft_history.specs.Legal.{of};
ghost use Rattle.loft_world.specs.State.{State};
ghost use Rattle.loft_baton.specs.declared.knows.Knows.{Knows};
ghost use Rattle.loft_baton.specs.Knowing.{Follows, joined};
ghost use Rattle.loft_baton.specs.PassValue.{PassValue};
ghost use Rattle.loft_ft.specs.Calls.{IsEvent, HasCaller, caller_of, entries_of};
ghost use Rattle.loft_ft.specs.Receipts.{Accepted, HasGiven, Keeps, Refused, Stamped, StandsAt};

use loft_code::Code;

/// Each event of valid code is on the board of one of its schedulers. The call does nothing: it tells a
/// proof what the type knows.
pub fn events_have_schedulers(c: &Code)
    ensures { (e : EventId) → e.0 < length c.now.heads.events → IsEvent c.now.heads e }
{
    let _program = c.program();
}

/// A caller that has made no call has given nothing. A call that is accepted is its last, and leaves
/// each earlier one where its receipt says. One that is refused leaves all as they were.
pub fn accepted_calls_are_kept()
    ensures none { (v : Knows) → entries_of v ≡ [] → HasGiven [] v }
    ensures accepted { (calls : List Stamped) (e : Entry) (stamp : ℕ) (old new : PassValue)
        → HasGiven calls old.knows → Accepted e stamp old new
        → HasGiven (calls ++ (stamp, e) ∷ []) new.knows }
    ensures refused { (calls : List Stamped) (old new : PassValue)
        → HasGiven calls old.knows → Refused old new → HasGiven calls new.knows }
{}

/// What a pass knew of its actors and had seen is known to the pass into which it was joined.
pub fn joined_passes_keep_what_was_known()
    ensures itself { (v : Knows) → Keeps v v }
    ensures first { (v w : Knows) → Keeps (joined v w) v }
    ensures second { (v w : Knows) → Keeps (joined v w) w }
    ensures on { (t u v : Knows) → Keeps t u → Keeps u v → Keeps t v }
{}

/// Where a caller's pass was joined into the one with which the world was closed, the history of that
/// world has the caller's accepted calls, in its order, and no others of it, each at its stamp. What is
/// said of the closing is what `close` says.
pub fn accepted_calls_stand_at_close()
    ensures own { (calls : List Stamped) (u v : Knows) (w : State) (h : Heads)
        → HasCaller v.own h → HasGiven calls v → Keeps u v → Follows u w
        → of (Client (caller_of v)) w.history ≡ map (λ r. r.1) calls }
    ensures stand { (calls : List Stamped) (u v : Knows) (w : State)
        → HasGiven calls v → Keeps u v → Follows u w
        → All (λ r. StandsAt r.0 r.1 w.history) calls }
{}
