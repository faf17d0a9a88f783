//! Laws of batons. Each is what the contract of an empty function says.

ghost use Rattle.std.specs.Prelude.{◌≡◌, List, Some, true};
ghost use Rattle.std.specs.List.{All};
ghost use mathlib.Core.List.{IsPrefix};
ghost use Rattle.loft_code.specs.View.{automata_of};
ghost use Rattle.loft_code.specs.declared.raw.CodeProgram.{CodeProgram};
ghost use Rattle.loft_base.specs.declared.options.RunOptions.{RunOptions};
ghost use Rattle.loft_orders.specs.declared.entry.Entry.{Entry};
ghost use Rattle.loft_sense.specs.Machine.{Code};
ghost use Rattle.loft_history.specs.Legal.{actor_of, IsRouted, IsLegal};
ghost use Rattle.loft_world.specs.State.{State};
ghost use Rattle.loft_baton.specs.declared.knows.Knows.{Knows};
ghost use Rattle.loft_baton.specs.Knowing.{has, joined, Follows};
ghost use Rattle.loft_baton.specs.Faithful.{AreFaithful};

/// Where each actor of a pass is declared and has made the entries that it has to make, and no more,
/// the history of the world for which the pass was closed is legal, whatever the order was in which
/// the actors had the world. The first two conditions are what `close` says, the third is what
/// `World::length` says, and the last is each actor's own.
pub fn closed_histories_are_legal()
    ensures { (c : CodeProgram) (o : RunOptions) (v : Knows) (w : State)
        → Follows v w → All (λ e. has v.own (actor_of e) ≡ true) w.history
        → IsRouted w.heads w.history
        → v.code ≡ Some c → AreFaithful (Code (automata_of c)) o v.own
        → IsLegal (Code (automata_of c)) o w.history }
{}

/// Where two passes have seen prefixes of one history, the pass that `join` makes of them has seen all
/// that each of them had seen. The rule has it that they have: what a pass has seen is a prefix of the
/// history.
pub fn joined_passes_have_seen_both()
    ensures first { (v w : Knows) (h : List Entry) → IsPrefix v.seen h → IsPrefix w.seen h
        → IsPrefix v.seen (joined v w).seen }
    ensures second { (v w : Knows) (h : List Entry) → IsPrefix v.seen h → IsPrefix w.seen h
        → IsPrefix w.seen (joined v w).seen }
{}
