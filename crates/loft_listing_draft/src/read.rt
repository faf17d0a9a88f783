//! Reading a listing as a draft.

ghost use Rattle.std.specs.Prelude.{◌≡◌, ℕ, ◌+◌, ◌≤◌, ◌++◌, List, None, Some, IfOk, IfSome, MatchOption, length};
ghost use Rattle.loft_listing_line.specs.Rows.{Title, line_text};
ghost use Rattle.loft_listing_draft.specs.Drafts as drafts;
ghost use Rattle.loft_listing_draft.specs.Drafts.{IsListing};
ghost use Rattle.loft_listing_draft.specs.Held.{EndsAt, Follows, Holds};
ghost use Rattle.loft_listing_draft.specs.InMemory.{IsInMemory};
ghost use Rattle.loft_listing_draft.specs.Stops.{StopsAt};
ghost use Rattle.loft_listing_draft.specs.Taking as plain;
ghost use Rattle.loft_listing_draft.specs.Taking.{closed};

use crate::closed::Closed;
use crate::draft::{Drafted, MAX_LISTING_LEN};
use crate::sofar::{Open, SoFar};
use crate::take::Taken;
use loft_base::{NoMemory, Room};
use loft_listing_line::{first_line, read_row};
use std::alloc::Global;

/// The first line of a listing.
const TITLE: &[u8] = b"loft-listing 1\n";

/// What comes of the next line of a text.
#[derive(Drop)]
enum Next<'a> {
    /// What the lines say with this one, and the text after it.
    More(SoFar, &'a [u8]),
    /// The text stops here: what the lines before say.
    Stop(SoFar),
}

/// The next line, which stands at this offset.
fn take_line<'a>(alloc: Global, sofar: SoFar, at: u32, text: &'a [u8]) -> Result<Next<'a>, NoMemory>
    requires short { length text.now ≤ MAX_LISTING_LEN }
    ensures { IfOk result (Follows sofar at text.now) }
{
    let Some((written, after)) = first_line(text) else {
        return Ok(Next::Stop(sofar));
    };
    let Some(row) = read_row(alloc, written)? else {
        return Ok(Next::Stop(sofar));
    };
    let mut room = Room::new(alloc);
    let taken = sofar.take(&mut room, row, at);
    match room.done(taken) {
        Ok(Taken::More(more)) => Ok(Next::More(more, after)),
        Ok(Taken::Stop(same)) => Ok(Next::Stop(same)),
        Err(NoMemory) => Err(NoMemory),
    }
}

/// The text after the first line of a listing, if it begins with that.
fn after_title(text: &[u8]) -> Option<&[u8]>
    ensures found { IfSome result (λ rest. text.now ≡ line_text Title ++ rest.now) }
    ensures only { (rest : List ℕ) → text.now ≡ line_text Title ++ rest
        → MatchOption result ⊥ (λ r. r.now ≡ rest) }
{
    let (line, rest) = first_line(text)?;
    if line == TITLE { Some(rest) } else { None }
}

/// What stands after the lines that are taken.
fn finish(alloc: Global, sofar: SoFar, at: u32, rest: &[u8]) -> Result<Drafted, NoMemory>
    ensures { (s : plain.SoFar) → Holds sofar at s → IfOk result (λ r.
        IsInMemory r.draft (closed s) × EndsAt s.begun rest.now at r.stop) }
{
    let whole = rest.is_empty() && matches!(sofar.begun, Open::Nothing);
    let draft = sofar.close(alloc)?;
    let stop = if whole { None } else { Some(at) };
    Ok(Drafted { draft, stop })
}

/// The lines after the first.
fn read_lines(alloc: Global, text: &[u8]) -> Result<Drafted, NoMemory>
    requires { length text.now ≤ MAX_LISTING_LEN }
    ensures whole { IfOk result (λ r. r.stop ≡ None → (d : drafts.Draft)
        × IsListing (line_text Title ++ text.now) d × IsInMemory r.draft d) }
    ensures stops { IfOk result (λ r. IfSome r.stop (λ n. (d : drafts.Draft)
        × StopsAt (line_text Title ++ text.now) d n × IsInMemory r.draft d)) }
    ensures only { (d : drafts.Draft) → IsListing (line_text Title ++ text.now) d
        → IfOk result (λ r. (r.stop ≡ None) × IsInMemory r.draft d) }
    ensures only_stops { (d : drafts.Draft) (n : ℕ) → StopsAt (line_text Title ++ text.now) d n
        → IfOk result (λ r. (r.stop ≡ Some n) × IsInMemory r.draft d) }
{
    let mut sofar = SoFar::new(alloc);
    let mut at = TITLE.len() as u32;
    let mut rest = text;
    'lines: loop {
        match take_line(alloc, sofar, at, rest)? {
            Next::More(more, after) => {
                sofar = more;
                at += (rest.len() - after.len()) as u32;
                rest = after;
            }
            Next::Stop(same) => return finish(alloc, same, at, rest),
        }
    }
}

/// What a listing says, with names as they are written (docs/CODE.md, "What a listing says"). Where
/// the text is no listing, what the lines before its stop say: the first line that is none of a
/// listing, may not stand there, is one more than a limit allows, or isn't there. Each line is read
/// once. The text has at most 128 MiB.
///
/// # Errors
///
/// `NoMemory` where memory runs out, whatever the text is.
pub fn read_draft(alloc: Global, text: &[u8]) -> Result<Drafted, NoMemory>
    requires { length text.now ≤ MAX_LISTING_LEN }
    ensures whole { IfOk result (λ r. r.stop ≡ None → (d : drafts.Draft)
        × IsListing text.now d × IsInMemory r.draft d) }
    ensures stops { IfOk result (λ r. IfSome r.stop (λ n. (d : drafts.Draft)
        × StopsAt text.now d n × IsInMemory r.draft d)) }
    ensures only { (d : drafts.Draft) → IsListing text.now d
        → IfOk result (λ r. (r.stop ≡ None) × IsInMemory r.draft d) }
    ensures only_stops { (d : drafts.Draft) (n : ℕ) → StopsAt text.now d n
        → IfOk result (λ r. (r.stop ≡ Some n) × IsInMemory r.draft d) }
{
    match after_title(text) {
        Some(rest) => read_lines(alloc, rest),
        None => Ok(Drafted {
            draft: Closed::none(alloc).draft,
            stop: Some(0),
        }),
    }
}
