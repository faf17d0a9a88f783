//! What a scheduler has used of its bounds (docs/SEMANTICS.md, "Machine").

ghost use Rattle.std.specs.Prelude.{◌≡◌, ◌<◌, ◌^◌};
ghost use Rattle.loft_sense.specs.Tally.{first_tally as first_tally_of, tally_after as tally_after_of};
ghost use Rattle.loft_sense.specs.Tally.{unlinks as unlinks_in, unlinked_in as unlinked_of};

use loft_base::SchedId;
use loft_instant_text::note_length;
use loft_orders::{InstantNote, Order, Orders, Sent, To};
use loft_sense::Tally;
use loft_tree::Heads;
use loft_value_text::{TextLength, TextWriter, push_scheduler_name};

/// Before the first instant of this scheduler.
pub fn first_tally(heads: &Heads, scheduler: SchedId) -> Tally
    ensures { result ≡ first_tally_of heads.now scheduler }
{
    let mut length = TextLength::new();
    length.text("scheduler ");
    push_scheduler_name(&mut length, heads, scheduler);
    length.byte(b'\n');
    Tally {
        number: 0,
        bytes: length.count,
        gone: 0,
    }
}

/// Whether it is a thread that leaves by `unlink`.
fn unlinks(sent: &Sent) -> bool
    ensures { result ≡ unlinks_in sent.now.to sent.now.order }
{
    match sent.to {
        To::Workers => matches!(sent.order, Order::Arrive(_)),
        _ => false,
    }
}

/// How many threads leave so.
fn unlinked_in(sents: &[Sent]) -> u64
    ensures { result ≡ unlinked_of sents.now }
{
    let mut count = 0;
    for sent in sents {
        if unlinks(sent) {
            count += 1;
        }
    }
    count
}

/// After one more instant of a scheduler, on this batch and with this note.
#[tactic(auto, unfolding(loft_sense::specs::Tally::tally_after))]
pub fn tally_after(
    heads: &Heads,
    scheduler: SchedId,
    tally: Tally,
    batch: &Orders,
    note: &InstantNote,
) -> Tally
    requires { tally.number < 2 ^ 63 }
    ensures { result ≡ tally_after_of heads.now tally batch.now note.now }
{
    Tally {
        number: tally.number + 1,
        bytes: tally
            .bytes
            .saturating_add(note_length(heads, scheduler, batch, note)),
        gone: tally.gone.saturating_add(unlinked_in(note.sent.as_slice())),
    }
}
