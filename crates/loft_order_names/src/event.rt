//! Events, and the points of a program, that orders name.

ghost use Rattle.std.specs.Prelude.{◌↔◌, IsTrue};
ghost use Rattle.loft_sense.specs.Fits.{IsPoint, EndNames, IsEventOf};

use loft_base::{EventId, SchedId};
use loft_orders::{At, End};
use loft_tree::Heads;

/// Whether the event is declared, and stands on the scheduler's board (docs/SEMANTICS.md, "Fits").
pub fn is_event_of(heads: &Heads, scheduler: SchedId, event: EventId) -> bool
    ensures { IsTrue result ↔ IsEventOf heads.now scheduler event }
{
    match heads.events.as_slice().get(event.0 as usize) {
        Some(head) => head.scheduler == scheduler,
        None => false,
    }
}

/// Whether the module of the point is declared.
fn is_point(heads: &Heads, at: At) -> bool
    ensures { IsTrue result ↔ IsPoint heads.now at }
{
    (at.module.0 as usize) < heads.modules.len()
}

/// Whether the module that the end names is declared; true of an end that names none (docs/SEMANTICS.md, "Fits").
pub fn end_names(heads: &Heads, end: End) -> bool
    ensures { IsTrue result ↔ EndNames heads.now end }
{
    match end {
        End::Done | End::Stopped | End::Full => true,
        End::Div(at) | End::Deep(at) | End::Over(at) | End::Flood(at) => is_point(heads, at),
    }
}
