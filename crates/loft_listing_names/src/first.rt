//! The first wrong line outside operations.

ghost use Rattle.std.specs.Prelude.{◌≡◌, [], map, IfOk, MatchOption};
ghost use Rattle.std.specs.List.{flat_map};
ghost use Rattle.loft_tree.specs.Fits.{SourceFits};
ghost use Rattle.loft_tree.specs.View.{head_of, source_of};
ghost use Rattle.loft_scopes.specs.Faults.{faults, place_of};
ghost use Rattle.loft_scopes.specs.Scopes.{declared};
ghost use Rattle.loft_listing_names.specs.Wrong.{IsLeast, declaration_misplaced, heads_in};

use crate::misplaced::note_items;
use loft_base::NoMemory;
use loft_names::declared_names;
use loft_scopes::Table;
use loft_tree::{Item, ModuleHead};
use std::alloc::Global;

/// What a listing declares, and the offset of the first line with a wrong name outside operations;
/// none where no line is wrong so (docs/CODE.md, "Names in a listing").
///
/// # Errors
///
/// Out of memory.
pub fn first_wrong_name<'a>(
    alloc: Global,
    items: &'a [Item],
) -> Result<(Table<'a>, Option<u32>), NoMemory>
    requires { SourceFits (source_of items.now) }
    ensures table { IfOk result (λ names. names.0 ≡ declared (source_of items.now)) }
    ensures least { IfOk result (λ names. let wrong = map place_of (faults (source_of items.now)) in
        MatchOption names.1 (wrong ≡ []) (λ n. IsLeast n wrong)) }
{
    let (table, fault) = declared_names(alloc, items)?;
    Ok((table, fault.map(|fault| fault.offset())))
}

/// The heads of the modules, by their numbers.
fn heads_of<'a>(alloc: Global, items: &'a [Item]) -> Result<Vec<&'a ModuleHead>, NoMemory>
    ensures { IfOk result (λ heads.
        map (λ h. head_of h.now) heads.items ≡ heads_in (source_of items.now)) }
{
    let mut heads = Vec::new(alloc);
    for item in items {
        if let Item::Module { head, .. } = item {
            heads.push(head)?;
        }
    }
    Ok(heads)
}

/// The offset of the first line on which a thread is made where it can't begin; none where each can
/// (docs/CODE.md, "Names in a listing").
///
/// # Errors
///
/// Out of memory.
pub fn first_misplaced(
    alloc: Global,
    table: &Table,
    items: &[Item],
) -> Result<Option<u32>, NoMemory>
    ensures { IfOk result (λ least. let p = source_of items.now in
        let wrong = flat_map (declaration_misplaced table.now (heads_in p)) p in
        MatchOption least (wrong ≡ []) (λ n. IsLeast n wrong)) }
{
    let heads = heads_of(alloc, items)?;
    let mut least = None;
    note_items(table, &heads, items, &mut least);
    Ok(least)
}
