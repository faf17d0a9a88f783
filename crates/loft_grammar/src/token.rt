//! Reading single tokens.

ghost use Rattle.std.specs.Prelude.{◌≡◌, ◌<◌, ◌==◌, [], ◌∷◌, None, Some, IfOk, OnOk, false};
ghost use Rattle.loft_form.specs.Reading.{Gives, tally, leaf_at};
ghost use Rattle.loft_grammar.specs.Language.{is_word, is_sign};
ghost use Rattle.loft_grammar.specs.Symbols.{word, sign, sign_place, word_place, opening_sign, first_word, counting, name, numeral, text};
ghost use Rattle.loft_grammar.specs.Statements.{opens_with};
ghost use Rattle.loft_grammar.specs.Readers.{Takes};
ghost use Rattle.loft_grammar.specs.View.{symbols_at, state_at, due_of, owed, reads, reads_flat, itself};

use crate::counts::{Counted, Counts};
use crate::cursor::Cursor;
use crate::limited::Limited;
use crate::reader::Reader;
use crate::symbol::{is_sign, is_word};
use loft_form::{Fault, Stop};
use loft_lex::{Sign, What, Word};
use loft_tree::{Ident, Text};
use std::alloc::Global;

/// The counts with one more of these, at a token from which on so many are left.
#[inline(never)]
fn one_more<L: Limited>(left: usize, what: Counted, counts: Counts) -> Result<Counts, Stop>
    ensures { Gives (λ after. after) result (tally L.limits left (what ∷ []) counts) }
{
    let number = counts.number(what);
    if let Some(limit) = L::most(what) {
        if limit <= number {
            return Err(Stop::Fault(Fault::TooMany { left, limit }));
        }
    }
    match counts.one_more(what) {
        Some(counts) => Ok(counts),
        // No text of less than 4 GiB has so many.
        None => Err(Stop::NoMemory),
    }
}

/// The same, if there is one of any.
#[inline(always)]
fn more<L: Limited>(left: usize, what: Option<Counted>, counts: Counts) -> Result<Counts, Stop>
    ensures { Gives (λ after. after) result (tally L.limits left (due_of what) counts) }
{
    match what {
        None => Ok(counts),
        Some(what) => one_more::<L>(left, what, counts),
    }
}

/// The counts after the next token, from which on so many are left. It counts as what is due, and then as `what`.
#[tactic(auto, using(crate::proofs::Leaves::tally_append))]
#[inline(always)]
fn count_next<'a, L: Limited>(
    left: usize,
    what: Option<Counted>,
    at: Cursor<'a>,
) -> Result<Counts, Stop>
    ensures { Gives (λ after. after) result (tally L.limits left (owed what (state_at at.entry)).due at.entry.counts) }
{
    let counts = more::<L>(left, at.due, at.counts)?;
    more::<L>(left, what, counts)
}

/// Reads the word, with its place.
#[tactic(auto, unfolding(loft_form::specs::Reading::leaf_at))]
#[inline(always)]
fn word_at<'a, L: Limited>(
    wanted: Word,
    too_deep: bool,
    what: Option<Counted>,
    at: Cursor<'a>,
) -> Result<(u32, Cursor<'a>), Stop>
    ensures within { OnOk result (too_deep ≡ false) }
    ensures gives { Gives itself result (leaf_at L.limits too_deep (is_word wanted) (λ x. x.at) (symbols_at at.entry) (owed what (state_at at.entry))) }
{
    match at.symbols {
        [] => Err(Stop::Fault(Fault::Expected(0))),
        [symbol, rest @ ..] => {
            let left = rest.len() + 1;
            if !is_word(symbol.what, wanted) {
                Err(Stop::Fault(Fault::Expected(left)))
            } else if too_deep {
                Err(Stop::Fault(Fault::TooDeep(left)))
            } else {
                let counts = count_next::<L>(left, what, at)?;
                Ok((symbol.at, Cursor::after(rest, counts)))
            }
        }
    }
}

/// Reads the sign, with its place.
#[tactic(auto, unfolding(loft_form::specs::Reading::leaf_at))]
#[inline(always)]
fn sign_at<'a, L: Limited>(
    wanted: Sign,
    too_deep: bool,
    at: Cursor<'a>,
) -> Result<(u32, Cursor<'a>), Stop>
    ensures within { OnOk result (too_deep ≡ false) }
    ensures settled { IfOk result (λ x. x.1.due ≡ None) }
    ensures gives { Gives itself result (leaf_at L.limits too_deep (is_sign wanted) (λ x. x.at) (symbols_at at.entry) (owed None (state_at at.entry))) }
{
    match at.symbols {
        [] => Err(Stop::Fault(Fault::Expected(0))),
        [symbol, rest @ ..] => {
            let left = rest.len() + 1;
            if !is_sign(symbol.what, wanted) {
                Err(Stop::Fault(Fault::Expected(left)))
            } else if too_deep {
                Err(Stop::Fault(Fault::TooDeep(left)))
            } else {
                let counts = count_next::<L>(left, None, at)?;
                Ok((symbol.at, Cursor::after(rest, counts)))
            }
        }
    }
}

/// Reads a name from here.
#[tactic(auto, unfolding(loft_form::specs::Reading::leaf_at), using(crate::proofs::Leaves::counting_is))]
#[inline(always)]
fn name_at<'a, L: Limited>(
    alloc: Global,
    what: Option<Counted>,
    at: Cursor<'a>,
) -> Result<(Ident, Cursor<'a>), Stop>
    ensures { Gives itself result (reads_flat L.limits (counting what name) at.entry) }
{
    match at.symbols {
        [] => Err(Stop::Fault(Fault::Expected(0))),
        [symbol, rest @ ..] => match symbol.what {
            What::Name(bytes) => {
                let counts = count_next::<L>(rest.len() + 1, what, at)?;
                let ident = Ident::new(Vec::from_slice(alloc, bytes)?, symbol.at);
                Ok((ident, Cursor::after(rest, counts)))
            }
            _ => Err(Stop::Fault(Fault::Expected(rest.len() + 1))),
        },
    }
}

/// Reads a number from here, with its place.
#[tactic(auto, unfolding(loft_form::specs::Reading::leaf_at), using(crate::proofs::Leaves::counting_is))]
#[inline(always)]
fn numeral_at<'a, L: Limited>(
    what: Option<Counted>,
    at: Cursor<'a>,
) -> Result<((u32, i64), Cursor<'a>), Stop>
    ensures { Gives itself result (reads_flat L.limits (counting what numeral) at.entry) }
{
    match at.symbols {
        [] => Err(Stop::Fault(Fault::Expected(0))),
        [symbol, rest @ ..] => match symbol.what {
            What::Number(value) => {
                let counts = count_next::<L>(rest.len() + 1, what, at)?;
                Ok(((symbol.at, value), Cursor::after(rest, counts)))
            }
            _ => Err(Stop::Fault(Fault::Expected(rest.len() + 1))),
        },
    }
}

/// Reads a text from here.
#[tactic(auto, unfolding(loft_form::specs::Reading::leaf_at), using(crate::proofs::Leaves::counting_is))]
fn text_at<'a, L: Limited>(alloc: Global, at: Cursor<'a>) -> Result<(Text, Cursor<'a>), Stop>
    ensures { Gives itself result (reads_flat L.limits text at.entry) }
{
    match at.symbols {
        [] => Err(Stop::Fault(Fault::Expected(0))),
        [symbol, rest @ ..] => match symbol.what {
            What::Text(bytes) => {
                let counts = count_next::<L>(rest.len() + 1, None, at)?;
                let line = Text::new(Vec::from_slice(alloc, bytes)?);
                Ok((line, Cursor::after(rest, counts)))
            }
            _ => Err(Stop::Fault(Fault::Expected(rest.len() + 1))),
        },
    }
}

/// Reads the word.
#[tactic(auto, using(crate::proofs::Leaves::counting_is, crate::proofs::Leaves::without_place))]
pub fn counted_word<'a, L: Limited>(what: Option<Counted>, wanted: Word, at: &mut Reader<'a>)
    ensures { Takes at.old at.new tt (reads_flat L.limits (counting what (word wanted)) at.old.cursor) }
{
    at.follow(word_at::<L>(wanted, false, what, at.cursor), 0);
}

/// Reads the word.
pub fn word<'a, L: Limited>(wanted: Word, at: &mut Reader<'a>)
    ensures { Takes at.old at.new tt (reads_flat L.limits (word wanted) at.old.cursor) }
{
    counted_word::<L>(None, wanted, at);
}

/// Reads the word, which isn't counted, with its place.
pub fn word_place<'a, L: Limited>(wanted: Word, at: &mut Reader<'a>) -> u32
    ensures { Takes at.old at.new result (reads_flat L.limits (word_place wanted) at.old.cursor) }
{
    at.follow(word_at::<L>(wanted, false, None, at.cursor), 0)
}

/// Reads the word, which begins one more of these, with its place.
pub fn first_word<'a, L: Limited>(what: Counted, wanted: Word, at: &mut Reader<'a>) -> u32
    ensures { Takes at.old at.new result (reads_flat L.limits (first_word what wanted) at.old.cursor) }
{
    at.follow(word_at::<L>(wanted, false, Some(what), at.cursor), 0)
}

/// Reads the word of a statement that opens a nesting, where so many may still be opened, with its place.
pub fn opening_word<'a, L: Limited>(deeper: u32, wanted: Word, at: &mut Reader<'a>) -> u32
    ensures within { at.new.stopped ≡ None → 0 < deeper }
    ensures takes { Takes at.old at.new result (reads L.limits deeper (opens_with wanted) at.old.cursor) }
{
    at.follow(
        word_at::<L>(wanted, deeper == 0, Some(Counted::Statement), at.cursor),
        0,
    )
}

/// Reads the sign.
#[tactic(auto, using(crate::proofs::Leaves::uncounted_without_place))]
pub fn sign<'a, L: Limited>(wanted: Sign, at: &mut Reader<'a>)
    ensures settled { at.new.stopped ≡ None → at.new.cursor.due ≡ None }
    ensures takes { Takes at.old at.new tt (reads_flat L.limits (sign wanted) at.old.cursor) }
{
    at.follow(sign_at::<L>(wanted, false, at.cursor), 0);
}

/// Reads the sign, with its place.
pub fn sign_place<'a, L: Limited>(wanted: Sign, at: &mut Reader<'a>) -> u32
    ensures { Takes at.old at.new result (reads_flat L.limits (sign_place wanted) at.old.cursor) }
{
    at.follow(sign_at::<L>(wanted, false, at.cursor), 0)
}

/// Reads the sign, which opens a nesting where so many may still be opened, with its place.
pub fn opening_sign<'a, L: Limited>(deeper: u32, wanted: Sign, at: &mut Reader<'a>) -> u32
    ensures within { at.new.stopped ≡ None → 0 < deeper }
    ensures takes { Takes at.old at.new result (reads L.limits deeper (opening_sign wanted) at.old.cursor) }
{
    at.follow(sign_at::<L>(wanted, deeper == 0, at.cursor), 0)
}

/// Reads a name.
pub fn name<'a, L: Limited>(what: Option<Counted>, at: &mut Reader<'a>) -> Ident
    ensures { Takes at.old at.new result (reads_flat L.limits (counting what name) at.old.cursor) }
{
    let none = Ident::new(Vec::new(at.alloc), 0);
    at.follow(name_at::<L>(at.alloc, what, at.cursor), none)
}

/// Reads a number, with its place.
pub fn numeral<'a, L: Limited>(what: Option<Counted>, at: &mut Reader<'a>) -> (u32, i64)
    ensures { Takes at.old at.new result (reads_flat L.limits (counting what numeral) at.old.cursor) }
{
    at.follow(numeral_at::<L>(what, at.cursor), (0, 0))
}

/// Reads a text.
pub fn text<'a, L: Limited>(at: &mut Reader<'a>) -> Text
    ensures { Takes at.old at.new result (reads_flat L.limits text at.old.cursor) }
{
    let none = Text::new(Vec::new(at.alloc));
    at.follow(text_at::<L>(at.alloc, at.cursor), none)
}
