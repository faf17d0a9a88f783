//! Numbers in place of names.

ghost use Rattle.std.specs.Prelude.{◌≡◌, ◌≢◌, IfErr, IfOk, OnOk};
ghost use Rattle.loft_tree.specs.View.{source_of};
ghost use Rattle.loft_tree.specs.ProgramView.{program_of};
ghost use Rattle.loft_tree.specs.Fits.{SourceFits};
ghost use Rattle.loft_numbers.specs.Numbers.{numbered};
ghost use Rattle.loft_scopes.specs.Scopes.{declared};
ghost use Rattle.loft_scopes.specs.Faults.{NameFault, NamesFit};
ghost use Rattle.loft_scopes.specs.declared.error.NameError.TheVariants.{NoMemory as no_memory};

use crate::names::declared_names;
use loft_base::NoMemory;
use loft_numbers::{number_heads, number_links, number_modules};
use loft_scopes::{NameError, Table};
use loft_tree::{Item, Named, NamedProgram, Program};
use std::alloc::Global;

/// The table of a program whose names and kinds are correct; the first fault of another.
fn check_names<'a>(alloc: Global, items: &'a [Item]) -> Result<Table<'a>, NameError>
    requires { SourceFits (source_of items.now) }
    ensures table { IfOk result (λ table. table ≡ declared (source_of items.now)) }
    ensures fits { OnOk result (NamesFit (source_of items.now)) }
    ensures fault { IfErr result (λ e. e ≢ no_memory → NameFault (source_of items.now) e) }
{
    let (table, least) = declared_names(alloc, items)?;
    if !table.has_scheduler() {
        return Err(NameError::NoScheduler);
    }
    match least {
        Some(fault) => Err(fault),
        None => Ok(table),
    }
}

/// The program with numbers in place of names, where the table has its declarations.
fn number_program(alloc: Global, table: &Table, items: &[Item]) -> Result<NamedProgram, NoMemory>
    requires table { table.now ≡ declared (source_of items.now) }
    requires fits { SourceFits (source_of items.now) }
    ensures { IfOk result (λ n. program_of n ≡ numbered (source_of items.now)) }
{
    Ok(NamedProgram {
        links: number_links(alloc, items)?,
        modules: number_modules(alloc, table, items)?,
        heads: number_heads(alloc, table, items)?,
    })
}

/// The program with numbers in place of names (docs/LANGUAGE.md, "Numbers of names"), where
/// its names and kinds are correct (docs/LANGUAGE.md, "Names" and "Kinds").
///
/// # Errors
///
/// `NameError::NoScheduler` where no scheduler is declared; else the first of all that is wrong with
/// its names and kinds, by its offset in the text. `NameError::NoMemory` where it is out of memory.
pub fn resolve(alloc: Global, p: Program) -> Result<Named, NameError>
    ensures fits { OnOk result (NamesFit (source_of p)) }
    ensures numbers { IfOk result (λ n. program_of n ≡ numbered (source_of p)) }

    // Only running out of memory is free.
    ensures fault { IfErr result (λ e. e ≢ no_memory → NameFault (source_of p) e) }
    ensures memory { NamesFit (source_of p) → IfErr result (λ e. e ≡ no_memory) }
{
    let items = p.items();
    let table = check_names(alloc, items)?;
    let program = number_program(alloc, &table, items)?;
    Ok(Named::new(program))
}
