//! What a symbol is.

ghost use Rattle.std.specs.Prelude.{◌≡◌, ◌||◌};
ghost use Rattle.loft_lex.specs.Seen.{what_seen};
ghost use Rattle.loft_form.specs.Form.{begins, ◌∣◌};
ghost use Rattle.loft_grammar.specs.Alone.{in_sum, in_conjunction, goes_on};
ghost use Rattle.loft_grammar.specs.Expressions.{multiplying, adding, equality, ordering};
ghost use Rattle.loft_grammar.specs.Language.{kind_of, is_word, is_sign, is_number, is_name};

use crate::operator::Level;
use loft_lex::{Sign, What, Word};

/// Whether it is this word.
pub fn is_word<'a>(what: What<'a>, word: Word) -> bool
    ensures { result ≡ is_word word (kind_of (what_seen what.entry)) }
{
    match what {
        What::Word(found) => found == word,
        _ => false,
    }
}

/// Whether it is this sign.
pub fn is_sign<'a>(what: What<'a>, sign: Sign) -> bool
    ensures { result ≡ is_sign sign (kind_of (what_seen what.entry)) }
{
    match what {
        What::Sign(found) => found == sign,
        _ => false,
    }
}

/// Whether it is a number or a name.
pub fn is_plain<'a>(what: What<'a>) -> bool
    ensures { result ≡ (is_number (kind_of (what_seen what.entry)) || is_name (kind_of (what_seen what.entry))) }
{
    matches!(what, What::Number(_) | What::Name(_))
}

/// Whether it is `*`, `/` or `%`.
fn multiplies<'a>(what: What<'a>) -> bool
    ensures { result ≡ begins multiplying (kind_of (what_seen what.entry)) }
{
    is_sign(what, Sign::Star) || is_sign(what, Sign::Slash) || is_sign(what, Sign::Percent)
}

/// Whether it is `+` or `-`.
fn adds<'a>(what: What<'a>) -> bool
    ensures { result ≡ begins adding (kind_of (what_seen what.entry)) }
{
    is_sign(what, Sign::Plus) || is_sign(what, Sign::Minus)
}

/// Whether it compares two values.
#[tactic(auto, unfolding(crate::specs::Expressions::equality, crate::specs::Expressions::ordering))]
fn compares<'a>(what: What<'a>) -> bool
    ensures { result ≡ begins (equality ∣ ordering) (kind_of (what_seen what.entry)) }
{
    is_sign(what, Sign::Same)
        || is_sign(what, Sign::Differs)
        || is_sign(what, Sign::Less)
        || is_sign(what, Sign::LessOrSame)
        || is_sign(what, Sign::Greater)
        || is_sign(what, Sign::GreaterOrSame)
}

/// Whether it is an operator of a `sum`, or of a part of one.
fn in_sum<'a>(what: What<'a>) -> bool
    ensures { result ≡ in_sum (kind_of (what_seen what.entry)) }
{
    multiplies(what) || adds(what)
}

/// Whether it is an operator of a `conjunction`, or of a part of one.
fn in_conjunction<'a>(what: What<'a>) -> bool
    ensures { result ≡ in_conjunction (kind_of (what_seen what.entry)) }
{
    in_sum(what) || compares(what) || is_sign(what, Sign::And)
}

/// Whether it is an operator of the level, or of one that binds more.
pub fn goes_on<'a>(level: Level, what: What<'a>) -> bool
    ensures { result ≡ goes_on level (kind_of (what_seen what.entry)) }
{
    match level {
        Level::Product => multiplies(what),
        Level::Sum => in_sum(what),
        Level::Conjunction => in_conjunction(what),
        Level::Disjunction => in_conjunction(what) || is_sign(what, Sign::Or),
    }
}
