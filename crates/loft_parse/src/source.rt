//! Reading a whole text.

ghost use Rattle.std.specs.Prelude.{◌≡◌, ◌<◌, ◌≤◌, ◌↔◌, Ok, Err, IfOk, IfErr, length};
ghost use Rattle.loft_lex.specs.TextSymbols.{symbols_seen, SymbolsOf};
ghost use Rattle.loft_tree.specs.Source.{Source};
ghost use Rattle.loft_tree.specs.View.{source_of};
ghost use Rattle.loft_parse.specs.declared.error.ParseError.TheVariants.{TooLong};
ghost use Rattle.loft_parse.specs.declared.error.ParseError.{ParseError};
ghost use Rattle.loft_grammar.specs.Texts.{Reads};
ghost use Rattle.loft_parse.specs.Faults.{SourceFault, IsFault};
ghost use Rattle.loft_parse.specs.Parsing.{parsed, Answers};
ghost use Rattle.loft_parse.specs.SymbolPlaces.{offset_of, fault_at, spelled};

use crate::error::ParseError;
use loft_form::{Fault, Stop};
use loft_grammar::Reader;
use loft_lex::{LexError, MAX_TEXT_LEN, Symbol, read_symbols};
use loft_productions::item::items;
use loft_tree::Program;
use std::alloc::Global;

/// The offset of the symbol from which on so many are left, or of the text's end.
fn offset_of(end: u32, symbols: &[Symbol], left: usize) -> u32
    ensures { result ≡ offset_of end (symbols_seen symbols.now) left }
{
    let (_, rest) = symbols.split_at(symbols.len().saturating_sub(left));
    match rest {
        [] => end,
        [symbol, ..] => symbol.at,
    }
}

/// The fault, with its offset in the text.
fn locate(end: u32, symbols: &[Symbol], fault: Fault) -> ParseError
    ensures { result ≡ fault_at end (symbols_seen symbols.now) fault }
{
    match fault {
        Fault::Expected(left) => ParseError::Expected(offset_of(end, symbols, left)),
        Fault::TooDeep(left) => ParseError::TooDeep(offset_of(end, symbols, left)),
        Fault::TooMany { left, limit } => ParseError::TooMany {
            at: offset_of(end, symbols, left),
            limit,
        },
    }
}

/// The program that the symbols found in the text spell, or their first fault.
fn program_of(alloc: Global, text: &[u8], found: &[Symbol]) -> Result<Program, ParseError>
    requires short { length text.now ≤ MAX_TEXT_LEN }
    requires symbols { SymbolsOf text.now (symbols_seen found.now) }
    ensures { Answers result (spelled (length text.now) (symbols_seen found.now)) }
{
    let end = text.len() as u32;
    let mut at = Reader::new(alloc, found);
    let declarations = items(&mut at);
    match &at.stopped {
        Some(Stop::NoMemory) => Err(ParseError::NoMemory),
        Some(Stop::Fault(fault)) => Err(locate(end, found, *fault)),
        None => match at.cursor.symbols {
            [] => Ok(Program::new(declarations)),
            rest => Err(locate(end, found, Fault::Expected(rest.len()))),
        },
    }
}

/// The program that a text of at most 4 MiB is, or its first fault.
fn parse_short(alloc: Global, text: &[u8]) -> Result<Program, ParseError>
    requires { length text.now ≤ MAX_TEXT_LEN }
    ensures { Answers result (parsed text.now) }
{
    match read_symbols(alloc, text) {
        Err(LexError::NoMemory) => Err(ParseError::NoMemory),
        Err(fault) => Err(ParseError::Lex(fault)),
        Ok(symbols) => program_of(alloc, text, symbols.as_slice()),
    }
}

/// The program that a text is, or its first fault (docs/LANGUAGE.md, "Grammar" and "Limits").
///
/// # Errors
///
/// `TooLong` exactly where the text has more than 4 MiB. Else the fault of the text (docs/LANGUAGE.md, "The fault of a
/// text"): `Lex` with its first lexical fault, if it has one; then `Expected`, `TooDeep` or `TooMany`, the one at the
/// smallest offset, where at one token they come in this order.
/// `NoMemory` where memory runs out for the tokens or the program, whatever the text is.
pub fn parse(alloc: Global, text: &[u8]) -> Result<Program, ParseError>
    // What is parsed is the program of the text, and no program is refused unless memory runs out.
    ensures ok { IfOk result (λ p. Reads text.now (source_of p)) }
    ensures only { (p : Source) → Reads text.now p → length text.now ≤ MAX_TEXT_LEN → Answers result (Ok p) }

    // Each error has its cause, and where the cause is, the error comes unless memory runs out.
    ensures fault { IfErr result (IsFault text.now) }
    ensures only_fault { (e : ParseError) → SourceFault text.now e → length text.now ≤ MAX_TEXT_LEN → Answers result (Err e) }
    ensures too_long { (result ≡ Err TooLong) ↔ (MAX_TEXT_LEN < length text.now) }
{
    if text.len() > MAX_TEXT_LEN {
        return Err(ParseError::TooLong);
    }
    parse_short(alloc, text)
}
