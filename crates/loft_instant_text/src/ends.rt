//! The ends that the orders of a batch made, order by order.

ghost use Rattle.std.specs.Prelude.{◌≡◌, ◌+◌, List, [], ◌∷◌, true};
ghost use Rattle.loft_tree.specs.declared.heads.Heads.{Heads};
ghost use Rattle.loft_orders.specs.declared.note.Ended.{Ended};
ghost use Rattle.loft_orders.specs.Lines.{text_of, ends_at};
ghost use Rattle.loft_value_text.specs.Appending.{Appends};
ghost use Rattle.loft_instant_text.specs.Ends.{InOrderFrom, AreLeft, leading};

use crate::lines::push_end_line;
use loft_orders::Ended;
use loft_tree::Heads;
use loft_value_text::TextWriter;

/// Whether ends stand in the order of their indexes. All that an instant's batch makes do.
#[tactic(auto, using(crate::proofs::EndLemmas::from_next))]
pub fn are_in_order(ends: &[Ended]) -> bool
    ensures { result ≡ true → InOrderFrom 0 ends.now }
{
    let mut least = 0;
    for ended in ends {
        if ended.index < least {
            return false;
        }
        least = ended.index;
    }
    true
}

/// How many of the first ends the order with this index made.
#[tactic(auto, using(crate::proofs::EndLemmas::leading_from, crate::proofs::EndLemmas::leading_stops))]
fn leading_ends(index: u64, ends: &[Ended]) -> usize
    ensures { result ≡ leading index ends.now }
{
    let mut count = 0;
    for ended in ends {
        if ended.index != index {
            return count;
        }
        count += 1;
    }
    count
}

/// Of the ends that are left, those among which are all that the order with this index made, and
/// those that are left after it. Where the ends stand in order each is looked at once, else they all
/// stay.
pub fn ends_from(index: u64, left: &[Ended], in_order: bool) -> (&[Ended], &[Ended])
    ensures here { (all : List Ended) → AreLeft in_order all index left.now
        → (h : Heads) → ends_at h index result.0.now ≡ ends_at h index all }
    ensures rest { (all : List Ended) → AreLeft in_order all index left.now
        → AreLeft in_order all (index + 1) result.1.now }
{
    if in_order {
        left.split_at(leading_ends(index, left))
    } else {
        (left, left)
    }
}

/// The lines of the ends that the order with this index made.
pub fn push_ends<W: TextWriter>(line: &mut W, heads: &Heads, index: u64, ends: &[Ended])
    ensures { Appends W.is_whole W.kept W.extended line.old line.new
        (text_of (ends_at heads.now index ends.now)) }
{
    for ended in ends {
        push_end_at(line, heads, index, *ended);
    }
}

/// The line of an end, if the order with this index made it.
#[tactic(auto, using(crate::proofs::EndLemmas::text_own, crate::proofs::EndLemmas::text_other))]
fn push_end_at<W: TextWriter>(line: &mut W, heads: &Heads, index: u64, ended: Ended)
    ensures { Appends W.is_whole W.kept W.extended line.old line.new
        (text_of (ends_at heads.now index (ended ∷ []))) }
{
    if ended.index == index {
        push_end_line(line, heads, ended.thread, ended.end);
        line.byte(b'\n');
    }
}
