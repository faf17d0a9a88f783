//! Names that a source with locks may not have.

ghost use Rattle.std.specs.Prelude.{◌≡◌, ◌++◌, ℕ, List, drop, IfOk, OnOk};
ghost use Rattle.std.specs.Option.{option_map};
ghost use Rattle.std.specs.List.{list_any};
ghost use Rattle.std.specs.Str.{bytes_eq};
ghost use Rattle.loft_lex.specs.declared.token.Token.{Token};
ghost use Rattle.loft_lex.specs.Symbol.{symbols as symbols_in};
ghost use Rattle.loft_lex.specs.TextSymbols.{symbols_seen};
ghost use Rattle.loft_lex.specs.Seen.{what_seen};
ghost use Rattle.loft_lock_forms.specs.Rewriting.{forms, all_say};
ghost use Rattle.loft_lock_forms.specs.Names.{long_name, reserved_name};
ghost use Rattle.loft_lock_forms.specs.Seen.{form_seen, whats, place_in, names_seen, lock_in, locks_of, next_of, is_long, declares_one, says_one, first_one};

use crate::form::{Form, first_form};
use loft_base::NoMemory;
use loft_lex::{Symbol, What};
use std::alloc::Global;

/// The most bytes of a lock's name: 64 of a name, and 7 of `unlock_`.
const MAX_LOCK_LEN: usize = 57;

/// The offset of the second symbol, or 0.
fn second_place(symbols: &[Symbol]) -> u32
    ensures { result ≡ place_in (drop 1 (symbols_seen symbols.now)) }
{
    match symbols {
        [] | [_] => 0,
        [_, symbol, ..] => symbol.at,
    }
}

/// How many of the symbols after the first belong to a form, and the form that begins with the first; `skip` of them belong to
/// a form before.
#[tactic(auto, using(crate::proofs::NameLemmas::next_skips))]
fn next<'a>(skip: usize, symbols: &[Symbol<'a>]) -> (usize, Option<Form<'a>>)
    ensures { (result.0, option_map form_seen result.1) ≡ next_of skip (whats (symbols_seen symbols.now)) }
{
    if skip > 0 {
        return (skip - 1, None);
    }
    match first_form(symbols) {
        None => (0, None),
        Some(form) => (form.more(), Some(form)),
    }
}

/// Whether it is a form with a name of a lock that has more than 57 bytes.
fn is_long(form: Option<Form>) -> bool
    ensures { result ≡ is_long (option_map form_seen form.entry) }
{
    match form {
        None => false,
        Some(form) => form.lock().len() > MAX_LOCK_LEN,
    }
}

/// The offset of the first name of a lock in a form that has more than 57 bytes.
pub fn long_name(symbols: &[Symbol]) -> Option<u32>
    ensures { (text : List ℕ) (ts : List Token) → symbols_seen symbols.now ≡ symbols_in text ts → result ≡ long_name text 0 ts }
{
    let mut rest = symbols;
    let mut skip = 0;
    while let [_, after @ ..] = rest {
        let (left, form) = next(skip, rest);
        if is_long(form) {
            return Some(second_place(rest));
        }
        skip = left;
        rest = after;
    }
    None
}

/// Adds the lock that the form declares, if it is there and declares one.
fn note_lock<'a>(locks: &mut Vec<&'a [u8]>, form: Option<Form<'a>>) -> Result<(), NoMemory>
    ensures { OnOk result (names_seen locks.new.items ≡ names_seen locks.old.items ++ lock_in (option_map form_seen form.entry)) }
{
    if let Some(Form::Declares { lock, .. }) = form {
        locks.push(lock)?;
    }
    Ok(())
}

/// The locks that the symbols declare.
fn declared_locks<'a>(alloc: Global, symbols: &[Symbol<'a>]) -> Result<Vec<&'a [u8]>, NoMemory>
    ensures { IfOk result (λ locks. names_seen locks.items ≡ locks_of (forms 0 (whats (symbols_seen symbols.now)))) }
{
    let mut locks = Vec::new(alloc);
    let mut rest = symbols;
    let mut skip = 0;
    while let [_, after @ ..] = rest {
        let (left, form) = next(skip, rest);
        note_lock(&mut locks, form)?;
        skip = left;
        rest = after;
    }
    Ok(locks)
}

/// Whether this is the name of one of the locks.
fn has(locks: &[&[u8]], name: &[u8]) -> bool
    ensures { result ≡ list_any (λ l. bytes_eq name.now l.now) locks.now }
{
    locks.iter().any(|lock| name == *lock)
}

/// Whether the name is `front` with the name of one of the locks after it.
fn is_written_after(front: &[u8], locks: &[&[u8]], name: &[u8]) -> bool
    ensures { result ≡ list_any (λ l. bytes_eq name.now (front.now ++ l.now)) locks.now }
{
    match name.strip_prefix(front) {
        Some(rest) => has(locks, rest),
        None => false,
    }
}

/// Whether the forms of one of the locks write the name.
fn is_written(locks: &[&[u8]], name: &[u8]) -> bool
    ensures { result ≡ declares_one locks.now name.now }
{
    is_written_after(b"held_", locks, name)
        || is_written_after(b"free_", locks, name)
        || is_written_after(b"lock_", locks, name)
        || is_written_after(b"unlock_", locks, name)
}

/// Whether it is a name that the forms of one of the locks write.
fn is_reserved(locks: &[&[u8]], what: What) -> bool
    ensures { result ≡ says_one locks.now (what_seen what.entry) }
{
    match what {
        What::Name(name) => is_written(locks, name),
        _ => false,
    }
}

/// The offset of the first name that the forms of one of these locks write.
fn first_written(locks: &[&[u8]], symbols: &[Symbol]) -> Option<u32>
    ensures { result ≡ first_one locks.now (symbols_seen symbols.now) }
{
    for symbol in symbols {
        if is_reserved(locks, symbol.what) {
            return Some(symbol.at);
        }
    }
    None
}

/// The offset of the first token that names what one of the source's forms declares.
///
/// # Errors
///
/// Out of memory.
pub fn reserved_name(alloc: Global, symbols: &[Symbol]) -> Result<Option<u32>, NoMemory>
    ensures { IfOk result (λ at. (text : List ℕ) (ts : List Token) → symbols_seen symbols.now ≡ symbols_in text ts
        → at ≡ reserved_name text (forms 0 (all_say text ts)) ts) }
{
    let locks = declared_locks(alloc, symbols)?;
    Ok(first_written(locks.as_slice(), symbols))
}
