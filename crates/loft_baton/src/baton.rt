//! The queue of one place, and its passes (docs/BATON.md).

ghost use Rattle.std.specs.Prelude.{◌≡◌, [], IfOk, Some, true, false};
ghost use Rattle.std.specs.List.{All};
ghost use Rattle.std.specs.Borrow.{sem};
ghost use Rattle.crossbeam_queue.specs.Passes.{view as queue_view, ruled_capacity, IsPassOf};
ghost use Rattle.loft_history.specs.Legal.{actor_of};
ghost use Rattle.loft_world.specs.State.{no_entries};
ghost use Rattle.loft_baton.specs.Knowing.{among, IsIdle, IsHolding, holding, Follows, Adds, released, begun, gave, newcomer, joined, has, fresh};
ghost use Rattle.loft_baton.specs.Count.{count_of, sole};

use crate::actor_count::ActorCount;
use crate::boxed_world::BoxedWorld;
use crate::knows::Knows;
use crate::rule::{Argument, Begun, Gave, Joined, OneWorld, Released, Taken};
use crossbeam_queue::RuledArrayQueue;
use loft_base::NoMemory;
use loft_code::Code;
use loft_orders::Actor;
use loft_world::World;
use std::alloc::Global;
use std::marker::{Brand, Model};
use std::sync::Wait;
use std::thread;

type Queue = RuledArrayQueue<BoxedWorld, Knows, OneWorld>;

type QueuePass = crossbeam_queue::Pass<BoxedWorld, Knows>;

/// The right of one thread to take the world and to add entries of its actors. Contracts see the
/// baton that it is of, and what it knows.
#[derive(Drop)]
pub struct Pass {
    inner: QueuePass,
    count: ActorCount,
    waits: u64,
}

impl Model for Pass {
    ghost use Rattle.loft_baton.specs.PassValue.{PassValue};

    ghost Value = { PassValue };

    ghost use Rattle.loft_tree.specs.contracts.named.NamedExpr as term;
    ghost use Rattle.std.specs.Coded.{codes};

    ghost coded = { Prim.hlevel (codes, term.the_row.coded) };

    ghost use Rattle.std.specs.Prelude.{◌≡◌, []};
    ghost use Rattle.crossbeam_queue.specs.Passes.{view as queue_view};
    ghost use Rattle.loft_baton.specs.Count.{count_of};

    ghost view = { λ p. record { baton = p.inner.table_id; knows = queue_view p.inner } };

    ghost invariant = { λ p. (p.inner.me.1 ≡ []) × (p.count ≡ count_of (queue_view p.inner).own) };
}

/// Where the world lies while no pass holds it. Contracts see which baton it is.
#[derive(Drop)]
pub struct Baton {
    queue: Queue,
}

impl Model for Baton {
    ghost use Rattle.atomic_table.specs.Seated.{TableId};

    ghost Value = { TableId };

    ghost use Rattle.std.specs.Prelude.{◌≡◌};
    ghost use Rattle.crossbeam_queue.specs.Passes.{ruled_capacity};

    ghost view = { λ b. b.queue.table.shared.table_id };

    ghost invariant = { λ b. ruled_capacity b.queue ≡ 1 };
}

/// The world in one thread's hands. It can't be dropped: it goes back by `release`. Contracts see the
/// world.
pub struct Held {
    world: BoxedWorld,
}

impl Model for Held {
    ghost use Rattle.loft_world.specs.State.{State};

    ghost Value = { State };

    ghost view = { λ h. h.world };
}

impl Held {
    ghost use Rattle.std.specs.Prelude.{◌≡◌};
    ghost use Rattle.std.specs.Borrow.{sem};
    ghost use Rattle.loft_baton.specs.Lending.{LendsWorld};

    /// The world, to read and to add entries to.
    pub fn world(&mut self) -> &mut World
        ensures* writes_back { sem 𝓛 (LendsWorld self.entry result) }
        ensures value { result.now ≡ self.old }
    {
        self.world.as_world()
    }
}

impl Pass {
    /// The pass's one actor. None exactly where it has no actor or more than one.
    pub fn one(&self) -> Option<Actor>
        ensures { result ≡ sole self.now.knows.own }
    {
        self.count.one()
    }

    /// How many looks of this pass found the world taken, so that it had to wait. No clause says how many.
    pub fn waits(&self) -> u64 {
        self.waits
    }
}

impl Baton {
    /// A baton with a world that has the declarations of this code and no entries, and the giving
    /// pass, which has no actor. It alone of these calls takes memory. It may wait.
    pub fn make<R: Wait>(
        rt: &R,
        alloc: Global,
        c: &Code,
        w: World,
    ) -> Result<(Baton, Pass), NoMemory>
        requires empty { w ≡ no_entries c.now.heads }
        ensures baton { IfOk result (λ made. made.1.baton ≡ made.0) }
        ensures knows { IfOk result (λ made. made.1.knows ≡ begun (Some c.now)) }
    {
        let world = BoxedWorld::new(alloc, w)?;
        let (queue, inner) = Queue::ruled(alloc, 1)?;
        Ok(begin::<Brand, R>(rt, queue, inner, c, world))
    }

    /// A pass for an actor that the giving pass hasn't given out yet. It has seen what the giving pass
    /// has seen.
    pub fn split(&self, p: &mut Pass, a: Actor) -> Pass
        requires pass { p.old.baton ≡ self.now }
        requires idle { IsIdle p.old.knows }
        requires gives { p.old.knows.gives ≡ true }
        requires new { among p.old.knows.given a ≡ false }
        ensures giver { p.new ≡ record p.old { knows = gave p.old.knows a } }
        ensures new { result ≡ record p.old { knows = newcomer p.old.knows a } }
    {
        self.split_as::<Brand>(p, a)
    }

    /// The same for an actor that a proof knows by name.
    fn split_as<J: Argument>(&self, p: &mut Pass, a: Actor) -> Pass
        requires pass { p.old.baton ≡ self.now }
        requires idle { IsIdle p.old.knows }
        requires gives { p.old.knows.gives ≡ true }
        requires new { among p.old.knows.given a ≡ false }
        requires name { a ≡ J.actor }
        ensures giver { p.new ≡ record p.old { knows = gave p.old.knows a } }
        ensures new { result ≡ record p.old { knows = newcomer p.old.knows a } }
    {
        let inner = self.queue.another::<Gave<J>>(&mut p.inner);
        Pass {
            inner,
            count: ActorCount::One(a),
            waits: 0,
        }
    }

    /// Waits for the world, and takes it. Its history begins with all that the pass has seen and that
    /// the passes joined into it had seen, and in it the pass's actors have just the entries that it
    /// knows; its orders fit as they are addressed (`Follows`).
    pub fn hold<R: Wait>(&self, rt: &R, p: &mut Pass) -> Held
        requires pass { p.old.baton ≡ self.now }
        requires idle { IsIdle p.old.knows }
        ensures knows { p.new ≡ record p.old { knows = holding p.old.knows result.history } }
        ensures follows { Follows p.old.knows result }
    {
        for _ in rt.forever() {
            if let Some(world) = self.queue.try_pop_as::<Taken>(&mut p.inner) {
                return Held { world };
            }
            p.waits = p.waits.saturating_add(1);
            thread::yield_now();
        }
        unreachable!()
    }

    /// Gives the world back, with what was added to its history: entries of the pass's own actors,
    /// whose orders fit as they are addressed (`Adds`).
    pub fn release<R: Wait>(&self, rt: &R, h: Held, p: &mut Pass)
        requires pass { p.old.baton ≡ self.now }
        requires holds { IsHolding p.old.knows }
        requires adds { Adds p.old.knows h }
        ensures knows { p.new ≡ record p.old { knows = released p.old.knows h.history } }
    {
        let Held { world } = h;
        if self
            .queue
            .push_as::<Released, R>(rt, &mut p.inner, world)
            .is_err()
        {
            unreachable!()
        }
    }

    /// Two passes in one: it has the actors of both, and the longer of what they had seen.
    pub fn join(&self, p: Pass, q: Pass) -> Pass
        requires pass { (p.baton ≡ self.now) × (q.baton ≡ self.now) }
        requires idle { IsIdle p.knows × IsIdle q.knows }
        ensures { result ≡ record { baton = self.now; knows = joined p.knows q.knows } }
    {
        let Pass {
            mut inner,
            count,
            waits,
        } = p;
        let Pass {
            inner: other,
            count: more,
            waits: others,
        } = q;
        self.queue.absorb::<Joined>(&mut inner, other);
        Pass {
            inner,
            count: count.with(more),
            waits: waits.saturating_add(others),
        }
    }

    /// Waits for the world, and takes it for good, with the giving pass, where it has each actor that
    /// was given out. Each actor's entries are those that the pass knows, and there are no others.
    pub fn close<R: Wait>(self, rt: &R, p: Pass) -> World
        requires pass { p.baton ≡ self }
        requires idle { IsIdle p.knows }
        requires gives { p.knows.gives ≡ true }
        requires whole { All (λ a. has p.knows.own a ≡ true) p.knows.given }
        ensures follows { Follows p.knows result }
        ensures only { All (λ e. has p.knows.own (actor_of e) ≡ true) result.history }
    {
        let mut p = p;
        let Held { world } = self.hold(rt, &mut p);
        world.into_world()
    }
}

/// Puts the world into the new queue, for code that a proof knows by name.
fn begin<J: Argument, R: Wait>(
    rt: &R,
    queue: Queue,
    inner: QueuePass,
    c: &Code,
    world: BoxedWorld,
) -> (Baton, Pass)
    requires empty { world ≡ no_entries c.now.heads }
    requires queue { IsPassOf queue inner × (queue_view inner ≡ fresh) × (ruled_capacity queue ≡ 1) }
    requires name { J.code ≡ Some c.now }
    ensures baton { result.1.baton ≡ result.0 }
    ensures knows { result.1.knows ≡ begun (Some c.now) }
{
    let _code = c;
    let mut inner = inner;
    if queue.push_as::<Begun<J>, R>(rt, &mut inner, world).is_err() {
        unreachable!()
    }
    let pass = Pass {
        inner,
        count: ActorCount::Nobody,
        waits: 0,
    };
    (Baton { queue }, pass)
}
