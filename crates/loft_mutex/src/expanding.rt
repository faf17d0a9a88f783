//! The program that a text with locks stands for.

ghost use Rattle.std.specs.Prelude.{◌≡◌, ◌≤◌, ℕ, List, length, IfOk, IfErr, IfSome, OnOk, None};
ghost use Rattle.loft_lex.specs.declared.TheConstants.{MAX_TEXT_LEN};
ghost use Rattle.loft_lex.specs.declared.token.Token.{Token};
ghost use Rattle.loft_lex.specs.TextSymbols.{symbols_seen};
ghost use Rattle.loft_lex.specs.Symbol.{symbols as symbols_in};
ghost use Rattle.loft_tree.specs.View.{source_of};
ghost use Rattle.loft_lock_expansion.specs.Expansion.{IsExpansion};
ghost use Rattle.loft_lock_expansion.specs.Refusals.{IsRefused};
ghost use Rattle.loft_mutex.specs.Refusing.{refusal_of, AreNamesFor};
ghost use Rattle.loft_mutex.specs.Kept.{KeepsLocks};
ghost use Rattle.loft_mutex.specs.Stages.{AreNamesFree, IsNameFault, IsWrittenFor};

use crate::checks::check_written;
use crate::error::MutexError;
use loft_lex::{MAX_TEXT_LEN, Symbol, lex, symbols, tokens_are_cut};
use loft_lock_expansion::expansions_keep_their_locks;
use loft_lock_forms::{Written, long_name, reserved_name, rewrite};
use loft_parse::{parse, texts_are_decided};
use loft_tree::{Names, Program};
use std::alloc::Global;

/// Whether the names of locks are short, and no other name is one that they declare; else the first that isn't so.
fn check_names(alloc: Global, symbols: &[Symbol]) -> Result<(), MutexError>
    ensures free { (text : List ℕ) (ts : List Token) → symbols_seen symbols.now ≡ symbols_in text ts → OnOk result (AreNamesFree text ts) }
    ensures fault { (text : List ℕ) (ts : List Token) → symbols_seen symbols.now ≡ symbols_in text ts → IfErr result (IsNameFault text ts) }
{
    if let Some(at) = long_name(symbols) {
        return Err(MutexError::LongLock(at));
    }
    match reserved_name(alloc, symbols)? {
        None => Ok(()),
        Some(at) => Err(MutexError::Reserved(at)),
    }
}

/// The text that is read in place of one of at most 4 MiB.
fn write_short<'a>(alloc: Global, text: &'a [u8]) -> Result<Written<'a>, MutexError>
    requires { length text.now ≤ MAX_TEXT_LEN }
    ensures written { IfOk result (IsWrittenFor text.now) }
    ensures refused { IfErr result (λ e. IfSome (refusal_of e) (IsRefused text.now)) }
    ensures named { (names : List (List ℕ)) → IfErr result (AreNamesFor text.now names) }
{
    tokens_are_cut();
    let tokens = lex(alloc, text)?;
    let symbols = symbols(alloc, text, tokens.as_slice())?;
    let Some(written) = rewrite(alloc, text, tokens.as_slice(), symbols.as_slice())? else {
        return Err(MutexError::TooLong);
    };
    check_names(alloc, symbols.as_slice())?;
    Ok(written)
}

/// The text that is read in place of the other.
fn write<'a>(alloc: Global, text: &'a [u8]) -> Result<Written<'a>, MutexError>
    ensures written { IfOk result (IsWrittenFor text.now) }
    ensures refused { IfErr result (λ e. IfSome (refusal_of e) (IsRefused text.now)) }
    ensures named { (names : List (List ℕ)) → IfErr result (AreNamesFor text.now names) }
{
    if text.len() > MAX_TEXT_LEN {
        return Err(MutexError::TooLong);
    }
    write_short(alloc, text)
}

/// The program that a text with locks stands for, as `expand` gives it. With an error, `names` become those of what it tells
/// by number: of schedulers with `Place`, of modules with `Pair` and `Leaves`.
///
/// # Errors
///
/// Those of `expand`.
pub fn expand_named(alloc: Global, text: &[u8], names: &mut Names) -> Result<Program, MutexError>
    ensures expansion { IfOk result (λ p. IsExpansion text.now (source_of p)) }
    ensures refused { IfErr result (λ e. IfSome (refusal_of e) (IsRefused text.now)) }
    ensures kept { IfOk result (λ p. KeepsLocks text.now (source_of p)) }
    // an error that tells things by number has their names
    ensures named { IfErr result (AreNamesFor text.now names.new) }
{
    texts_are_decided();
    expansions_keep_their_locks();
    let written = write(alloc, text)?;
    check_written(alloc, &written, names)?;
    match parse(alloc, written.text.as_slice()) {
        Ok(program) => Ok(program),
        Err(_) => Err(MutexError::NoMemory),
    }
}

/// The program that a text with locks stands for (docs/LOCKS.md).
///
/// # Errors
///
/// The first reason of `MutexError` that applies; `NoMemory` where memory runs out, whatever the text is.
pub fn expand(alloc: Global, text: &[u8]) -> Result<Program, MutexError>
    // Ok gives the program that the text stands for, and no reason to refuse the text applies.
    ensures expansion { IfOk result (λ p. IsExpansion text.now (source_of p)) }

    // Each error has its cause, and none before it applies; out of memory alone is free.
    ensures refused { IfErr result (λ e. IfSome (refusal_of e) (IsRefused text.now)) }

    // At most one thread at a time is inside a lock that the text declares.
    ensures kept { IfOk result (λ p. KeepsLocks text.now (source_of p)) }
{
    let mut names = Names::new(alloc);
    expand_named(alloc, text, &mut names)
}
