//! Names and places in a line.

ghost use Rattle.std.specs.Prelude.{◌≡◌, ◌++◌, [], Some, IfOk, IfSome};
ghost use Rattle.std.specs.Option.{option_map};
ghost use Rattle.loft_tree.specs.Source.{Ident, PlaceName, Variable};
ghost use Rattle.loft_tree.specs.Fits.{ExpressionFits, NameFits, PlaceFits};
ghost use Rattle.loft_tree.specs.View.{expression_of, place_name_of};
ghost use Rattle.loft_grammar.specs.Limits.{nesting};
ghost use Rattle.loft_show.specs.Canon.{pieces_text, place_pieces};
ghost use Rattle.loft_show.specs.Places.{bare_expression, bare_name, bare_place};
ghost use Rattle.loft_listing_line.specs.Finds.{Finds};
ghost use Rattle.loft_listing_line.specs.Instructions.{feed};

use crate::value::value_in;
use loft_base::{NoMemory, Out};
use loft_lex::Word;
use loft_tree::{Expr, Ident, PlaceName};
use std::alloc::Global;

/// The bytes with a line feed after them.
fn with_feed(alloc: Global, bytes: &[u8]) -> Result<Vec<u8>, NoMemory>
    ensures { IfOk result (λ line. line.items ≡ bytes.now ++ feed) }
{
    let mut line = Out::new(alloc);
    line.put(bytes);
    line.put(b"\n");
    line.done()
}

/// The name that an expression is.
fn name_of(value: Expr) -> Option<Ident>
    ensures found { (n : Ident) → bare_expression (expression_of value) ≡ Variable (bare_name n)
        → option_map bare_name result ≡ Some (bare_name n) }
    ensures fits { ExpressionFits nesting (expression_of value) → IfSome result NameFits }
{
    match value {
        Expr::Name(name) => Some(name),
        Expr::Number { .. } | Expr::Builtin { .. } | Expr::Unary { .. } | Expr::Binary { .. } => {
            None
        }
    }
}

/// The name that these bytes are.
pub fn name_in(alloc: Global, bytes: &[u8]) -> Result<Option<Ident>, NoMemory>
    ensures found { Finds (λ n. n) bare_name NameFits (λ n. n.text) bytes.now result }
    ensures fits { IfOk result (λ found. IfSome found NameFits) }
{
    let line = with_feed(alloc, bytes)?;
    match value_in(alloc, line.as_slice())? {
        Some(value) => Ok(name_of(value)),
        None => Ok(None),
    }
}

/// The place that these bytes name.
pub fn place_in(alloc: Global, bytes: &[u8]) -> Result<Option<PlaceName>, NoMemory>
    ensures found { Finds place_name_of bare_place PlaceFits (λ p. pieces_text (place_pieces p []))
        bytes.now result }
    ensures fits { IfOk result (λ found. IfSome found (λ p. PlaceFits (place_name_of p))) }
{
    if bytes == Word::Unlinked.spelling() {
        return Ok(Some(PlaceName::Unlinked));
    }
    Ok(name_in(alloc, bytes)?.map(PlaceName::Scheduler))
}
