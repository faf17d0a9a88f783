//! Reading a listing.

ghost use Rattle.std.specs.Prelude.{◌≡◌, ◌≤◌, ◌<◌, ◌⊎◌, ℕ, [], Err, length, IfErr, IfOk};
ghost use Rattle.loft_tree.specs.View.{source_of};
ghost use Rattle.loft_scopes.specs.Scopes.{declared};
ghost use Rattle.loft_code.specs.Operations.{Automata};
ghost use Rattle.loft_code.specs.View.{automata_of};
ghost use Rattle.loft_listing_draft.specs.Drafts.{Draft as PlainDraft, DraftFits};
ghost use Rattle.loft_listing_draft.specs.InMemory.{IsInMemory};
ghost use Rattle.loft_listing_names.specs.Wrong.{wrong_offsets};
ghost use Rattle.loft_listing_reader.specs.AllWrong.{all_wrong, IsDraft, IsLeastOf};
ghost use Rattle.loft_listing_reader.specs.Lists.{line_number, LineFault, Lists};
ghost use Rattle.loft_listing_reader.specs.Numbered.{numbered};
ghost use Rattle.loft_listing_reader.specs.declared.error.ListError.TheVariants.{Line, NoMemory as no_memory, TooLong};

use crate::earlier::earlier;
use crate::error::ListError;
use crate::module::modules_code;
use crate::wrong::first_wrong_operation;
use loft_base::NoMemory;
use loft_code::{CodeProgram, RawCode};
use loft_listing_draft::{Draft, Drafted, MAX_LISTING_LEN, read_draft};
use loft_listing_names::{first_misplaced, first_wrong_name};
use loft_numbers::number_heads;
use loft_scopes::Table;
use std::alloc::Global;

/// What a draft declares, and the offset of the first line that is wrong, or at which the text
/// stops; none where it is a listing without wrong lines.
fn first_fault<'a>(
    alloc: Global,
    drafted: &'a Drafted,
) -> Result<(Table<'a>, Option<u32>), NoMemory>
    requires { IsDraft drafted.now.draft }
    ensures table { IfOk result (λ found.
        found.0 ≡ declared (source_of drafted.now.draft.items.items)) }
    ensures least { (d : PlainDraft) → IsInMemory drafted.now.draft d
        → IfOk result (λ found. IsLeastOf found.1 (all_wrong drafted.now.stop d)) }
{
    let items = drafted.draft.items.as_slice();
    let (table, name) = first_wrong_name(alloc, items)?;
    let misplaced = first_misplaced(alloc, &table, items)?;
    let operation = first_wrong_operation(&table, &drafted.draft);
    let first = earlier(drafted.stop, earlier(name, earlier(misplaced, operation)));
    Ok((table, first))
}

/// The code that a draft without wrong lines says, with numbers in place of its names.
fn code_of(alloc: Global, table: &Table, draft: &Draft) -> Result<RawCode, NoMemory>
    requires table { table.now ≡ declared (source_of draft.now.items.items) }
    requires right { (d : PlainDraft) × DraftFits d × IsInMemory draft.now d
        × (wrong_offsets d ≡ []) }
    ensures { (d : PlainDraft) → IsInMemory draft.now d
        → IfOk result (λ c. automata_of c ≡ numbered d) }
{
    let heads = number_heads(alloc, table, draft.items.as_slice())?;
    let modules = modules_code(alloc, table, draft)?;
    Ok(RawCode::new(CodeProgram { heads, modules }))
}

/// The number of the line at this offset, from 1.
fn line_number(text: &[u8], at: u32) -> u32
    requires { length text.now ≤ MAX_LISTING_LEN }
    ensures { result ≡ line_number text.now at }
{
    let before = &text[..text.len().min(at as usize)];
    1 + before.iter().filter(|byte| **byte == b'\n').count() as u32
}

/// The code that a listing is of (docs/CODE.md, "Listings that are read").
///
/// # Errors
///
/// `ListError::TooLong` where the text has more than 128 MiB; else `ListError::Line` with the first
/// line that is wrong, or with which no listing goes on; `ListError::NoMemory` where memory runs
/// out.
pub fn read(alloc: Global, text: &[u8]) -> Result<RawCode, ListError>
    ensures lists { IfOk result (λ c. Lists text.now (automata_of c)) }
    ensures line { (n : ℕ) → result ≡ Err (Line n)
        → (length text.now ≤ MAX_LISTING_LEN) × LineFault text.now n }
    ensures long { result ≡ Err TooLong → MAX_LISTING_LEN < length text.now }
    ensures too_long { MAX_LISTING_LEN < length text.now → result ≡ Err TooLong }
    ensures only { (c : Automata) → Lists text.now c → length text.now ≤ MAX_LISTING_LEN
        → IfOk result (λ r. automata_of r ≡ c) × IfErr result (λ e. e ≡ no_memory) }
    ensures only_line { (n : ℕ) → LineFault text.now n → length text.now ≤ MAX_LISTING_LEN
        → IfOk result (λ r. ⊥) × IfErr result (λ e. (e ≡ no_memory) ⊎ (e ≡ Line n)) }
{
    if text.len() > MAX_LISTING_LEN {
        return Err(ListError::TooLong);
    }
    let drafted = read_draft(alloc, text)?;
    let (table, fault) = first_fault(alloc, &drafted)?;
    match fault {
        Some(at) => Err(ListError::Line(line_number(text, at))),
        None => Ok(code_of(alloc, &table, &drafted.draft)?),
    }
}
