//! Names that are declared, and what is wrong with names.

ghost use Rattle.std.specs.Prelude.{◌≡◌, [], IfOk, MatchOption};
ghost use Rattle.loft_tree.specs.View.{source_of};
ghost use Rattle.loft_tree.specs.Fits.{SourceFits};
ghost use Rattle.loft_scopes.specs.Scopes.{declared};
ghost use Rattle.loft_scopes.specs.Faults.{IsFirst, faults};

use loft_base::NoMemory;
use loft_name_faults::note_uses;
use loft_scopes::{NameError, Table, declare_all};
use loft_tree::Item;
use std::alloc::Global;

/// What is declared, and the first of all that is wrong with names and kinds, by its offset; no fault
/// where nothing is. That there is no scheduler is no fault here (docs/LANGUAGE.md, "Names" and
/// "Kinds").
///
/// # Errors
///
/// Out of memory.
pub fn declared_names<'a>(
    alloc: Global,
    items: &'a [Item],
) -> Result<(Table<'a>, Option<NameError>), NoMemory>
    requires { SourceFits (source_of items.now) }
    ensures table { IfOk result (λ names. names.0 ≡ declared (source_of items.now)) }
    ensures fault { IfOk result (λ names. MatchOption names.1
        (faults (source_of items.now) ≡ []) (λ e. IsFirst e (faults (source_of items.now)))) }
{
    let mut least = None;
    let table = declare_all(alloc, items, &mut least)?;
    note_uses(&table, items, &mut least);
    Ok((table, least))
}
