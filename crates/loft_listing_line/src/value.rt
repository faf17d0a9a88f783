//! Expressions in a line.

ghost use Rattle.std.specs.Prelude.{◌++◌, [], IfOk, IfSome};
ghost use Rattle.loft_tree.specs.View.{expression_of};
ghost use Rattle.loft_tree.specs.Fits.{ExpressionFits};
ghost use Rattle.loft_grammar.specs.Limits.{nesting};
ghost use Rattle.loft_show.specs.Canon.{expression_pieces, pieces_text};
ghost use Rattle.loft_show.specs.Places.{bare_expression};
ghost use Rattle.loft_listing_line.specs.Finds.{Finds};
ghost use Rattle.loft_listing_line.specs.Instructions.{feed};

use loft_base::NoMemory;
use loft_fragments::read_expression;
use loft_tree::Expr;
use std::alloc::Global;

/// The expression that the text is, with a line feed.
pub fn value_in(alloc: Global, text: &[u8]) -> Result<Option<Expr>, NoMemory>
    ensures found { Finds expression_of bare_expression (ExpressionFits nesting)
        (λ e. pieces_text (expression_pieces e []) ++ feed) text.now result }
    ensures fits { IfOk result (λ found. IfSome found
        (λ e. ExpressionFits nesting (expression_of e))) }
{
    read_expression(alloc, text)
}
