//! Lines that are read as parts of a source.

ghost use Rattle.std.specs.Prelude.{◌↔◌, [], ◌∷◌, IfOk, IfSome, IsTrue};
ghost use Rattle.loft_tree.specs.View.{declaration_of, head_of, named_of, order_of};
ghost use Rattle.loft_tree.specs.Fits.{NameFits, OrderFits};
ghost use Rattle.loft_grammar.specs.PartsFit.{HeadFits, NamedFits};
ghost use Rattle.loft_show.specs.Canon.{declaration_lines, head_line, lines_text, local_line, order_line, outside_line};
ghost use Rattle.loft_show.specs.Places.{bare_declaration, bare_head, bare_name, bare_named, bare_order};
ghost use Rattle.loft_listing_line.specs.Finds.{Finds};
ghost use Rattle.loft_listing_line.specs.Rows.{bare_line, line_text};
ghost use Rattle.loft_listing_line.specs.RowsFit.{IsOneLineItem, ItemFits, ListingLineFits};
ghost use Rattle.loft_listing_line.specs.RowView.{row_of};

use crate::cut::cut_at;
use crate::name::name_in;
use crate::operation::operation;
use crate::row::Row;
use crate::sort::{LineSort, line_sort};
use loft_base::NoMemory;
use loft_fragments::{read_declaration, read_head, read_local, read_order};
use loft_tree::{Ident, Item, ModuleHead, OutsideOrder, Variable};
use std::alloc::Global;

/// Whether a declaration is one line.
fn is_one_line(item: &Item) -> bool
    ensures { IsTrue result ↔ IsOneLineItem (declaration_of item.now) }
{
    match item {
        Item::Scheduler(_) | Item::Event { .. } | Item::Shared { .. } | Item::Start { .. } => true,
        Item::Module { .. } | Item::Outside { .. } => false,
    }
}

/// The declaration of one line that the line is.
fn item(alloc: Global, line: &[u8]) -> Result<Option<Item>, NoMemory>
    ensures found { Finds declaration_of bare_declaration ItemFits
        (λ d. lines_text (declaration_lines d)) line.now result }
    ensures fits { IfOk result (λ found. IfSome found (λ d. ItemFits (declaration_of d))) }
{
    match read_declaration(alloc, line)? {
        Some(item) => {
            if is_one_line(&item) {
                Ok(Some(item))
            } else {
                Ok(None)
            }
        }
        None => Ok(None),
    }
}

/// The head of a module that the line is.
fn head(alloc: Global, line: &[u8]) -> Result<Option<ModuleHead>, NoMemory>
    ensures found { Finds head_of bare_head HeadFits (λ h. lines_text (head_line h ∷ []))
        line.now result }
    ensures fits { IfOk result (λ found. IfSome found (λ h. HeadFits (head_of h))) }
{
    read_head(alloc, line)
}

/// The local variable that the line declares.
fn local(alloc: Global, line: &[u8]) -> Result<Option<Variable>, NoMemory>
    ensures found { Finds named_of bare_named NamedFits (λ v. lines_text (local_line 0 v ∷ []))
        line.now result }
    ensures fits { IfOk result (λ found. IfSome found (λ v. NamedFits (named_of v))) }
{
    read_local(alloc, line)
}

/// The order of a client that the line is.
fn order(alloc: Global, line: &[u8]) -> Result<Option<OutsideOrder>, NoMemory>
    ensures found { Finds order_of bare_order OrderFits (λ x. lines_text (order_line x ∷ []))
        line.now result }
    ensures fits { IfOk result (λ found. IfSome found (λ x. OrderFits (order_of x))) }
{
    read_order(alloc, line)
}

/// The name of the client whose first line this may be.
fn client(alloc: Global, line: &[u8]) -> Result<Option<Ident>, NoMemory>
    ensures found { Finds (λ n. n) bare_name NameFits (λ n. lines_text (outside_line n ∷ []))
        line.now result }
    ensures fits { IfOk result (λ found. IfSome found NameFits) }
{
    let Some((_, line)) = cut_at(line, b' ') else {
        return Ok(None);
    };
    match cut_at(line, b' ') {
        Some((name, _)) => name_in(alloc, name),
        None => Ok(None),
    }
}

/// What a text says that is known to be a line of a listing, of less than 4 GiB (docs/CODE.md, "Lines of
/// a listing"). Of another text it may answer anything: where it isn't known, `read_row` compares.
///
/// # Errors
///
/// `NoMemory` where memory runs out, whatever the text is.
pub fn find_row(alloc: Global, line: &[u8]) -> Result<Option<Row>, NoMemory>
    ensures found { Finds row_of bare_line ListingLineFits line_text line.now result }
    ensures fits { IfOk result (λ found. IfSome found (λ r. ListingLineFits (row_of r))) }
{
    match line_sort(line) {
        LineSort::Title => Ok(Some(Row::Title)),
        LineSort::Item => Ok(item(alloc, line)?.map(Row::Item)),
        LineSort::Head => Ok(head(alloc, line)?.map(Row::Head)),
        LineSort::Local => Ok(local(alloc, line)?.map(Row::Local)),
        LineSort::Operation => Ok(operation(alloc, line)?.map(Row::Operation)),
        LineSort::End => Ok(Some(Row::End)),
        LineSort::Client => Ok(client(alloc, line)?.map(Row::Client)),
        LineSort::Order => Ok(order(alloc, line)?.map(Row::Order)),
        LineSort::Close => Ok(Some(Row::Close)),
    }
}
