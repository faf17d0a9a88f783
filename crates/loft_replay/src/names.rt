//! Whom a name means.

ghost use Rattle.std.specs.Prelude.{◌≡◌};
ghost use Rattle.loft_replay.specs.Named.{scheduler_named, client_named};

use loft_tree::{Heads, Name};

/// The index of the scheduler of this name.
pub(crate) fn scheduler_named(heads: &Heads, name: &Name) -> Option<usize>
    ensures { result ≡ scheduler_named heads.now name.now }
{
    let schedulers = heads.schedulers.as_slice();
    schedulers
        .iter()
        .position(|other| other.as_slice() == name.as_slice())
}

/// The index of the client of this name.
pub(crate) fn client_named(heads: &Heads, name: &Name) -> Option<usize>
    ensures { result ≡ client_named heads.now name.now }
{
    let clients = heads.clients.as_slice();
    clients
        .iter()
        .position(|other| other.name.as_slice() == name.as_slice())
}
