//! The world in memory of its own.

ghost use Rattle.std.specs.Prelude.{◌≡◌, IfOk};
ghost use Rattle.std.specs.Borrow.{sem};

use loft_base::NoMemory;
use loft_world::World;
use std::alloc::Global;
use std::marker::Model;

/// The world in memory of its own: what goes from thread to thread is where it lies, and not its bytes.
/// Contracts see the world.
#[derive(Drop)]
pub(crate) struct BoxedWorld {
    world: Box<World>,
}

impl Model for BoxedWorld {
    ghost use Rattle.loft_world.specs.State.{State};

    ghost Value = { State };

    ghost view = { λ boxed. boxed.world.value };
}

impl BoxedWorld {
    ghost use Rattle.loft_baton.specs.Lending.{LendsBoxed};

    /// Puts the world into memory of its own. `NoMemory` comes where there is none.
    pub(crate) fn new(alloc: Global, world: World) -> Result<BoxedWorld, NoMemory>
        ensures { IfOk result (λ boxed. boxed ≡ world) }
    {
        let world = Box::new(alloc, world)?;
        Ok(BoxedWorld { world })
    }

    /// The world, to read and to add entries to.
    pub(crate) fn as_world(&mut self) -> &mut World
        ensures* writes_back { sem 𝓛 (LendsBoxed self.entry result) }
        ensures value { result.now ≡ self.old }
    {
        &mut self.world
    }

    /// The world.
    pub(crate) fn into_world(self) -> World
        ensures { result ≡ self }
    {
        Box::into_inner(self.world)
    }
}
