//! What operations do.

ghost use Rattle.std.specs.Prelude.{◌≢◌, ◌++◌, IfOk, IfSome, codes};
ghost use Rattle.loft_tree.specs.View.{expression_of, statement_of};
ghost use Rattle.loft_tree.specs.Fits.{ExpressionFits};
ghost use Rattle.loft_grammar.specs.Limits.{nesting};
ghost use Rattle.loft_show.specs.Places.{bare_expression, bare_statement};
ghost use Rattle.loft_listing_line.specs.Finds.{Finds};
ghost use Rattle.loft_listing_line.specs.Instructions.{bare_instruction, instruction_text, statement_text, value_text};
ghost use Rattle.loft_listing_line.specs.RowsFit.{InstructionFits, IsInstructionOf, IsStatementOf};
ghost use Rattle.loft_listing_line.specs.RowView.{deed_of};
ghost use Rattle.loft_listing_line.specs.declared.sort.DeedSort.TheVariants as deed;
ghost use Rattle.loft_listing_line.specs.declared.sort.StatementSort.TheVariants as statement;

use crate::cut::{cut_at, number_at_end, number_before};
use crate::row::Deed;
use crate::sort::{DeedSort, StatementSort, deed_sort, statement_sort};
use crate::value::value_in;
use loft_base::NoMemory;
use loft_fragments::read_statement;
use loft_tree::{Expr, Stmt};
use std::alloc::Global;

/// The statement of this sort that the text is.
fn statement_in(alloc: Global, sort: StatementSort, text: &[u8]) -> Result<Option<Stmt>, NoMemory>
    requires { sort ≢ statement.Compound }
    ensures found { Finds statement_of bare_statement (IsStatementOf sort) statement_text
        text.now result }
    ensures fits { IfOk result (λ found. IfSome found (λ s. IsStatementOf sort (statement_of s))) }
{
    match read_statement(alloc, text)? {
        Some(statement) => {
            if statement_sort(&statement) == sort {
                Ok(Some(statement))
            } else {
                drop(statement);
                Ok(None)
            }
        }
        None => Ok(None),
    }
}

/// The number and the stop of a text `@NUMBER STOP`.
fn stop_in(alloc: Global, text: &[u8]) -> Result<Option<Deed>, NoMemory>
    ensures found { Finds deed_of bare_instruction (IsInstructionOf deed.Stop) instruction_text
        text.now result }
    ensures fits { IfOk result (λ found. IfSome found (λ d. InstructionFits (deed_of d))) }
{
    let [_, text @ ..] = text else {
        return Ok(None);
    };
    let Some((number, text)) = number_before(text) else {
        return Ok(None);
    };
    match statement_in(alloc, StatementSort::Stop, text)? {
        Some(statement) => Ok(Some(Deed::Stop { number, statement })),
        None => Ok(None),
    }
}

/// The target and the test of a text `branch TARGET TEST`.
fn branch_in(alloc: Global, text: &[u8]) -> Result<Option<Deed>, NoMemory>
    ensures found { Finds deed_of bare_instruction (IsInstructionOf deed.Branch) instruction_text
        text.now result }
    ensures fits { IfOk result (λ found. IfSome found (λ d. InstructionFits (deed_of d))) }
{
    let Some((_, text)) = cut_at(text, b' ') else {
        return Ok(None);
    };
    let Some((target, text)) = number_before(text) else {
        return Ok(None);
    };
    match value_in(alloc, text)? {
        Some(test) => Ok(Some(Deed::Branch { target, test })),
        None => Ok(None),
    }
}

/// The expression of a text `count E`.
fn count_in(alloc: Global, text: &[u8]) -> Result<Option<Expr>, NoMemory>
    ensures found { Finds expression_of bare_expression (ExpressionFits nesting)
        (λ e. codes "count" ++ value_text e) text.now result }
    ensures fits { IfOk result (λ found. IfSome found
        (λ e. ExpressionFits nesting (expression_of e))) }
{
    match cut_at(text, b' ') {
        Some((_, text)) => value_in(alloc, text),
        None => Ok(None),
    }
}

/// What an operation with this text does, if it can be told by parts of the text.
pub fn deed_in(alloc: Global, text: &[u8]) -> Result<Option<Deed>, NoMemory>
    ensures found { Finds deed_of bare_instruction InstructionFits instruction_text
        text.now result }
    ensures fits { IfOk result (λ found. IfSome found (λ d. InstructionFits (deed_of d))) }
{
    match deed_sort(text) {
        DeedSort::Do => Ok(statement_in(alloc, StatementSort::Action, text)?.map(Deed::Do)),
        DeedSort::Stop => stop_in(alloc, text),
        DeedSort::Branch => branch_in(alloc, text),
        DeedSort::Enter => Ok(Some(Deed::Enter)),
        DeedSort::Count => Ok(count_in(alloc, text)?.map(Deed::Count)),
        DeedSort::Turn => Ok(number_at_end(text).map(|target| Deed::Turn { target })),
        DeedSort::Jump => Ok(number_at_end(text).map(|target| Deed::Jump { target })),
        DeedSort::End => Ok(Some(Deed::End)),
    }
}
