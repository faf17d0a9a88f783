//! How many actors a pass has.

use loft_orders::Actor;

/// How many actors a pass has, and which where it has one.
#[derive(Clone, Copy)]
pub(crate) enum ActorCount {
    Nobody,
    One(Actor),
    Several,
}

impl ActorCount {
    ghost use Rattle.std.specs.Prelude.{◌≡◌, ◌++◌, List};
    ghost use Rattle.loft_baton.specs.declared.knows.Own.{Own};
    ghost use Rattle.loft_baton.specs.Count.{count_of, sole};

    /// That of both together.
    pub(crate) fn with(self, other: ActorCount) -> ActorCount
        ensures { (a b : List Own) → self ≡ count_of a → other ≡ count_of b
            → result ≡ count_of (a ++ b) }
    {
        match (self, other) {
            (ActorCount::Nobody, _) => other,
            (_, ActorCount::Nobody) => self,
            _ => ActorCount::Several,
        }
    }

    /// The one actor, where it is one.
    pub(crate) fn one(self) -> Option<Actor>
        ensures { (own : List Own) → self ≡ count_of own → result ≡ sole own }
    {
        match self {
            ActorCount::One(actor) => Some(actor),
            _ => None,
        }
    }
}
