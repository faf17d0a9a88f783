//! Reading a part of a source that is a text by itself.

ghost use Rattle.std.specs.Prelude.{◌≡◌, ◌≤◌, Some, None, IfOk, IfSome, length};
ghost use Rattle.std.specs.Option.{option_map};
ghost use Rattle.loft_lex.specs.TextSymbols.{symbols_seen};
ghost use Rattle.loft_tree.specs.Source.{Expression, Statement, Named, ModuleHead as Head, Order, Declaration};
ghost use Rattle.loft_tree.specs.View.{expression_of, statement_of, named_of, head_of, order_of, declaration_of};
ghost use Rattle.loft_tree.specs.Fits.{ExpressionFits, OrderFits, DeclarationFits};
ghost use Rattle.loft_grammar.specs.Limits.{limits, line_limits, nesting, beginning};
ghost use Rattle.loft_grammar.specs.Expressions.{whole};
ghost use Rattle.loft_grammar.specs.Statements.{statement};
ghost use Rattle.loft_grammar.specs.Items.{head, local, order, item};
ghost use Rattle.loft_grammar.specs.Texts.{SpellsPart};
ghost use Rattle.loft_grammar.specs.PartsFit.{NamedFits, HeadFits, LineFits};
ghost use Rattle.loft_fragments.specs.Parts.{IsCut, ComesOf, outcome};
ghost use Rattle.loft_grammar.specs.View.{symbols_at, state_at};

use loft_base::NoMemory;
use loft_form::Stop;
use loft_grammar::{LineLimits, Reader, SourceLimits};
use loft_lex::{LexError, MAX_OFFSET, Symbol, read_symbols};
use loft_productions::body::statement;
use loft_productions::expression::whole;
use loft_productions::head::{head, local};
use loft_productions::item::{NESTING, item};
use loft_productions::order::order;
use loft_tree::{Expr, Item, ModuleHead, OutsideOrder, Stmt, Variable};
use std::alloc::Global;

/// The symbols of the text, unless it is too long or has a lexical fault.
#[tactic(auto, using(crate::proofs::PartLaws::fault_uncut))]
fn symbols_of<'a>(alloc: Global, text: &'a [u8]) -> Result<Option<Vec<Symbol<'a>>>, NoMemory>
    ensures { IfOk result (IsCut text.now) }
{
    if text.len() > MAX_OFFSET {
        return Ok(None);
    }
    match read_symbols(alloc, text) {
        Ok(symbols) => Ok(Some(symbols)),
        Err(LexError::BadByte(_)) => Ok(None),
        Err(LexError::OpenText(_)) => Ok(None),
        Err(LexError::LongName(_)) => Ok(None),
        Err(LexError::LongText(_)) => Ok(None),
        Err(LexError::BadNumber(_)) => Ok(None),
        Err(LexError::NoMemory) => Err(NoMemory),
    }
}

/// The reader before these symbols, where nothing is counted.
fn start<'a>(alloc: Global, symbols: &'a [Symbol<'a>]) -> Reader<'a>
    ensures symbols { symbols_at result.cursor ≡ symbols_seen symbols.entry.now }
    ensures state { state_at result.cursor ≡ beginning }
    ensures going { result.stopped ≡ None }
{
    Reader::new(alloc, symbols)
}

/// What was read, if no symbol is left.
fn all_of<'a, T: Drop>(part: T, at: Reader<'a>) -> Result<Option<T>, NoMemory>
    ensures { ComesOf (outcome at.entry.stopped part at.entry.cursor) result }
{
    match &at.stopped {
        None => match at.cursor.symbols {
            [] => Ok(Some(part)),
            _ => Ok(None),
        },
        Some(Stop::Fault(_)) => Ok(None),
        Some(Stop::NoMemory) => Err(NoMemory),
    }
}

/// The statement that the text is, within the limits of a line; nothing where it is none, or has 4 GiB or more
/// (docs/LANGUAGE.md, "Parts of a source").
///
/// # Errors
///
/// `NoMemory` where memory runs out, whatever the text is.
pub fn read_statement(alloc: Global, text: &[u8]) -> Result<Option<Stmt>, NoMemory>
    ensures read { IfOk result (λ found. IfSome found (λ v.
        SpellsPart line_limits statement text.now (statement_of v))) }
    ensures only { (x : Statement)
        → SpellsPart line_limits statement text.now x → length text.now ≤ MAX_OFFSET
        → IfOk result (λ found. option_map statement_of found ≡ Some x) }
    ensures fits { IfOk result (λ found. IfSome found (λ v. LineFits (statement_of v))) }
{
    match symbols_of(alloc, text)? {
        Some(found) => {
            let mut at = start(alloc, found.as_slice());
            let part = statement::<LineLimits>(NESTING, &mut at);
            all_of(part, at)
        }
        None => Ok(None),
    }
}

/// The expression that the text is; nothing where it is none, or has 4 GiB or more
/// (docs/LANGUAGE.md, "Parts of a source").
///
/// # Errors
///
/// `NoMemory` where memory runs out, whatever the text is.
pub fn read_expression(alloc: Global, text: &[u8]) -> Result<Option<Expr>, NoMemory>
    ensures read { IfOk result (λ found. IfSome found (λ v.
        SpellsPart limits whole text.now (expression_of v))) }
    ensures only { (x : Expression)
        → SpellsPart limits whole text.now x → length text.now ≤ MAX_OFFSET
        → IfOk result (λ found. option_map expression_of found ≡ Some x) }
    ensures fits { IfOk result (λ found. IfSome found (λ v.
        ExpressionFits nesting (expression_of v))) }
{
    match symbols_of(alloc, text)? {
        Some(found) => {
            let mut at = start(alloc, found.as_slice());
            let part = whole::<SourceLimits>(NESTING, &mut at);
            all_of(part, at)
        }
        None => Ok(None),
    }
}

/// The declaration that the text is; nothing where it is none, or has 4 GiB or more
/// (docs/LANGUAGE.md, "Parts of a source").
///
/// # Errors
///
/// `NoMemory` where memory runs out, whatever the text is.
pub fn read_declaration(alloc: Global, text: &[u8]) -> Result<Option<Item>, NoMemory>
    ensures read { IfOk result (λ found. IfSome found (λ v.
        SpellsPart limits item text.now (declaration_of v))) }
    ensures only { (x : Declaration)
        → SpellsPart limits item text.now x → length text.now ≤ MAX_OFFSET
        → IfOk result (λ found. option_map declaration_of found ≡ Some x) }
    ensures fits { IfOk result (λ found. IfSome found (λ v. DeclarationFits (declaration_of v))) }
{
    match symbols_of(alloc, text)? {
        Some(found) => {
            let mut at = start(alloc, found.as_slice());
            let part = item(&mut at);
            all_of(part, at)
        }
        None => Ok(None),
    }
}

/// The line of a module up to its local variables that the text is; nothing where it is none, or has 4 GiB or more
/// (docs/LANGUAGE.md, "Parts of a source").
///
/// # Errors
///
/// `NoMemory` where memory runs out, whatever the text is.
pub fn read_head(alloc: Global, text: &[u8]) -> Result<Option<ModuleHead>, NoMemory>
    ensures read { IfOk result (λ found. IfSome found (λ v.
        SpellsPart limits head text.now (head_of v))) }
    ensures only { (x : Head)
        → SpellsPart limits head text.now x → length text.now ≤ MAX_OFFSET
        → IfOk result (λ found. option_map head_of found ≡ Some x) }
    ensures fits { IfOk result (λ found. IfSome found (λ v. HeadFits (head_of v))) }
{
    match symbols_of(alloc, text)? {
        Some(found) => {
            let mut at = start(alloc, found.as_slice());
            let part = head(&mut at);
            all_of(part, at)
        }
        None => Ok(None),
    }
}

/// The local variable that the text declares; nothing where it is none, or has 4 GiB or more
/// (docs/LANGUAGE.md, "Parts of a source").
///
/// # Errors
///
/// `NoMemory` where memory runs out, whatever the text is.
pub fn read_local(alloc: Global, text: &[u8]) -> Result<Option<Variable>, NoMemory>
    ensures read { IfOk result (λ found. IfSome found (λ v.
        SpellsPart limits local text.now (named_of v))) }
    ensures only { (x : Named)
        → SpellsPart limits local text.now x → length text.now ≤ MAX_OFFSET
        → IfOk result (λ found. option_map named_of found ≡ Some x) }
    ensures fits { IfOk result (λ found. IfSome found (λ v. NamedFits (named_of v))) }
{
    match symbols_of(alloc, text)? {
        Some(found) => {
            let mut at = start(alloc, found.as_slice());
            let part = local(&mut at);
            all_of(part, at)
        }
        None => Ok(None),
    }
}

/// The order of an outside client that the text is; nothing where it is none, or has 4 GiB or more
/// (docs/LANGUAGE.md, "Parts of a source").
///
/// # Errors
///
/// `NoMemory` where memory runs out, whatever the text is.
pub fn read_order(alloc: Global, text: &[u8]) -> Result<Option<OutsideOrder>, NoMemory>
    ensures read { IfOk result (λ found. IfSome found (λ v.
        SpellsPart limits order text.now (order_of v))) }
    ensures only { (x : Order)
        → SpellsPart limits order text.now x → length text.now ≤ MAX_OFFSET
        → IfOk result (λ found. option_map order_of found ≡ Some x) }
    ensures fits { IfOk result (λ found. IfSome found (λ v. OrderFits (order_of v))) }
{
    match symbols_of(alloc, text)? {
        Some(found) => {
            let mut at = start(alloc, found.as_slice());
            let part = order(&mut at);
            all_of(part, at)
        }
        None => Ok(None),
    }
}
