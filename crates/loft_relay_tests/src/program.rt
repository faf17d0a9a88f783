//! A small program as code: `scheduler A; event e in A;`.

ghost use Rattle.std.specs.Prelude.{◌≡◌, [], ◌∷◌, IfOk};
ghost use Rattle.loft_tree.specs.declared.heads.HeadItem.TheVariants.{Scheduler as AScheduler, Event as AnEvent};

use loft_base::{EventId, NoMemory, SchedId, Sequence};
use loft_code::{Code, CodeProgram, RawCode, validate};
use loft_tree::{EventHead, HeadItem, Heads, Name, SharedHeads};
use std::alloc::Global;

/// What the program declares.
fn heads(alloc: Global) -> Result<Heads, NoMemory>
    ensures { IfOk result (λ h. h ≡ record {
      schedulers = (65 ∷ []) ∷ [];
      events = record { name = 101 ∷ []; scheduler = record { 0 = 0 } } ∷ [];
      shared = [];
      modules = [];
      starts = [];
      clients = [];
      items = AScheduler (record { 0 = 0 }) ∷ AnEvent (record { 0 = 0 }) ∷ [];
    }) }
{
    let mut schedulers = Sequence::new(alloc);
    schedulers.push(Name::from_slice(alloc, b"A")?)?;
    let mut events = Sequence::new(alloc);
    events.push(EventHead {
        name: Name::from_slice(alloc, b"e")?,
        scheduler: SchedId(0),
    })?;
    let items = Sequence::from_slice(
        alloc,
        &[HeadItem::Scheduler(SchedId(0)), HeadItem::Event(EventId(0))],
    )?;
    Ok(Heads {
        schedulers,
        events,
        shared: SharedHeads::none(alloc),
        modules: Sequence::new(alloc),
        starts: Sequence::new(alloc),
        clients: Sequence::new(alloc),
        items,
    })
}

/// The program. `NoMemory` comes only where there is none.
pub(crate) fn code(alloc: Global) -> Result<Code, NoMemory>
    ensures { IfOk result (λ c. c.heads ≡ record {
      schedulers = (65 ∷ []) ∷ [];
      events = record { name = 101 ∷ []; scheduler = record { 0 = 0 } } ∷ [];
      shared = [];
      modules = [];
      starts = [];
      clients = [];
      items = AScheduler (record { 0 = 0 }) ∷ AnEvent (record { 0 = 0 }) ∷ [];
    }) }
{
    let heads = heads(alloc)?;
    let raw = RawCode::new(CodeProgram {
        heads,
        modules: Vec::new(alloc),
    });
    validate(alloc, raw).map_err(|_| NoMemory)
}
