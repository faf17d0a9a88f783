//! The rule that the queue keeps (docs/BATON.md, "The rule"), and what each step tells a pass. These
//! types are for proofs alone.

use crate::boxed_world::BoxedWorld;
use crate::knows::Knows;
use crossbeam_queue::protocol::{Join, Lesson, Outcome, Protocol, Split};
use std::marker::{Brand, PhantomData};

/// One world, which lies in the queue or is held by one pass.
pub(crate) struct OneWorld;

impl Protocol<BoxedWorld, Knows> for OneWorld {
    ghost use Rattle.loft_baton.specs.Knowing.{fresh};
    ghost use Rattle.loft_baton.specs.Rule.{Kept};

    ghost holds = { Kept };

    ghost first = { fresh };
}

/// What a call is made with that no view has: the code of a baton, or the actor of a new pass.
pub(crate) trait Argument {
    ghost use Rattle.std.specs.Prelude.{Option};
    ghost use Rattle.loft_code.specs.declared.raw.CodeProgram.{CodeProgram};
    ghost use Rattle.loft_orders.specs.declared.entry.Actor.{Actor};

    ghost code: { Option CodeProgram };

    ghost actor: { Actor };
}

impl Argument for Brand {
    ghost use Rattle.std.specs.Prelude.{None};
    ghost use Rattle.loft_orders.specs.declared.entry.Actor.TheVariants.{Client};

    ghost code = { None };

    ghost actor = { Client 0 };
}

/// The world is put in.
pub(crate) struct Begun<J> {
    of: PhantomData<J>,
}

impl<J: Argument> Outcome<BoxedWorld, Knows> for Begun<J> {
    ghost use Rattle.std.specs.Prelude.{◌≡◌};
    ghost use Rattle.loft_baton.specs.Knowing.{begun};

    ghost then = { λ v x w. w ≡ begun J.code };
}

impl<J: Argument> Lesson<BoxedWorld, Knows> for Begun<J> {
    ghost use Rattle.std.specs.Prelude.{◌≡◌, []};

    ghost fact = { λ v items. items ≡ [] };
}

/// A pass takes the world.
pub(crate) struct Taken;

impl Outcome<BoxedWorld, Knows> for Taken {
    ghost use Rattle.std.specs.Prelude.{◌≡◌};
    ghost use Rattle.loft_baton.specs.Knowing.{holding, Follows};

    ghost then = { λ v x w. (w ≡ holding v x.history) × Follows v x };
}

/// A pass gives the world back.
pub(crate) struct Released;

impl Outcome<BoxedWorld, Knows> for Released {
    ghost use Rattle.std.specs.Prelude.{◌≡◌};
    ghost use Rattle.loft_baton.specs.Knowing.{released};

    ghost then = { λ v x w. w ≡ released v x.history };
}

impl Lesson<BoxedWorld, Knows> for Released {
    ghost use Rattle.std.specs.Prelude.{◌≡◌, []};

    ghost fact = { λ v items. items ≡ [] };
}

/// A new pass for one more actor.
pub(crate) struct Gave<J> {
    of: PhantomData<J>,
}

impl<J: Argument> Split<Knows> for Gave<J> {
    ghost use Rattle.loft_baton.specs.Knowing.{gave, newcomer};

    ghost left = { λ v. gave v J.actor };

    ghost right = { λ v. newcomer v J.actor };
}

/// Two passes become one.
pub(crate) struct Joined;

impl Join<Knows> for Joined {
    ghost use Rattle.loft_baton.specs.Knowing.{joined, spent};

    ghost both = { joined };

    ghost spent = { spent };
}
