//! Sums and maxima of steps, up to the most that are told apart.

ghost use Rattle.std.specs.Prelude.{◌≡◌, ◌≤◌, min};
ghost use Rattle.loft_budget.specs.Steps.{plus, larger, only_through, surely, for_ever, followed};
ghost use Rattle.loft_budget.specs.Steps.{either, one_more, turning};
ghost use Rattle.loft_body.specs.declared.steps.TheConstants.{MOST_COUNTED};
ghost use Rattle.loft_body.specs.Capped.{capped, capped_steps, IsSmall, AreSmall};

use loft_budget::Steps;

/// The most steps that are told apart: more than any bound.
pub const MOST_COUNTED: u64 = 1_000_001;

/// A number of steps, up to the most that are told apart.
pub fn counted(n: u64) -> u64
    ensures { result ≡ min n MOST_COUNTED }
{
    if n < MOST_COUNTED { n } else { MOST_COUNTED }
}

/// The sum, where both are there.
fn plus(a: Option<u64>, b: Option<u64>) -> Option<u64>
    requires first { IsSmall a }
    requires second { IsSmall b }
    ensures sum { result ≡ capped (plus a b) }
    ensures small { IsSmall result }
{
    match (a, b) {
        (Some(m), Some(n)) => Some(counted(m + n)),
        _ => None,
    }
}

/// The larger of those that are there.
fn larger(a: Option<u64>, b: Option<u64>) -> Option<u64>
    requires first { IsSmall a }
    requires second { IsSmall b }
    ensures larger { result ≡ capped (larger a b) }
    ensures small { IsSmall result }
{
    match (a, b) {
        (Some(m), Some(n)) => Some(if m < n { n } else { m }),
        (Some(m), None) => Some(m),
        (None, b) => b,
    }
}

/// Work without a sure statement, in so many steps.
pub fn only_through(n: u64) -> Steps
    requires { n ≤ MOST_COUNTED }
    ensures steps { result ≡ only_through n }
    ensures small { AreSmall result }
{
    Steps {
        through: Some(n),
        head: None,
        tail: None,
        most: None,
    }
}

/// A sure statement.
pub fn surely() -> Steps
    ensures steps { result ≡ surely }
    ensures small { AreSmall result }
{
    Steps {
        through: None,
        head: Some(1),
        tail: Some(1),
        most: None,
    }
}

/// A statement after which nothing goes on.
pub fn for_ever() -> Steps
    ensures steps { result ≡ for_ever }
    ensures small { AreSmall result }
{
    Steps {
        through: None,
        head: Some(1),
        tail: None,
        most: None,
    }
}

/// The first work, and then the next.
#[tactic(auto, using(crate::proofs::Caps::caps))]
pub fn followed(first: Steps, next: Steps) -> Steps
    requires first { AreSmall first }
    requires second { AreSmall next }
    ensures steps { result ≡ capped_steps (followed first next) }
    ensures small { AreSmall result }
{
    let to_sure = plus(first.through, next.head);
    let to_end = plus(first.tail, next.through);
    let between = plus(first.tail, next.head);
    Steps {
        through: plus(first.through, next.through),
        head: larger(first.head, to_sure),
        tail: larger(next.tail, to_end),
        most: larger(larger(first.most, next.most), between),
    }
}

/// The one work or the other.
#[tactic(auto, using(crate::proofs::Caps::caps))]
pub fn either(one: Steps, other: Steps) -> Steps
    requires first { AreSmall one }
    requires second { AreSmall other }
    ensures steps { result ≡ capped_steps (either one other) }
    ensures small { AreSmall result }
{
    Steps {
        through: larger(one.through, other.through),
        head: larger(one.head, other.head),
        tail: larger(one.tail, other.tail),
        most: larger(one.most, other.most),
    }
}

/// A step before this work.
#[tactic(auto, using(crate::proofs::Caps::caps))]
pub fn one_more(steps: Steps) -> Steps
    requires { AreSmall steps }
    ensures steps { result ≡ capped_steps (one_more steps) }
    ensures small { AreSmall result }
{
    Steps {
        through: plus(Some(1), steps.through),
        head: plus(Some(1), steps.head),
        tail: steps.tail,
        most: steps.most,
    }
}

/// Turns of this work and the tests between them, where all those without a sure statement take so
/// many steps together.
#[tactic(auto, using(crate::proofs::Caps::caps))]
pub fn turning(turns: u64, steps: Steps) -> Steps
    requires few { turns ≤ MOST_COUNTED }
    requires small { AreSmall steps }
    ensures steps { result ≡ capped_steps (turning turns steps) }
    ensures small { AreSmall result }
{
    let to_end = plus(steps.tail, Some(turns));
    let between = plus(to_end, steps.head);
    Steps {
        through: Some(turns),
        head: plus(Some(turns), steps.head),
        tail: to_end,
        most: larger(steps.most, between),
    }
}
