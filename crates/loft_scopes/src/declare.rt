//! What a program declares, and what it declares twice.

ghost use Rattle.std.specs.Prelude.{◌≡◌, ◌+◌, ◌<◌, ◌≤◌, ◌^◌, ◌∷◌, [], length, map, IfOk, OnOk};
ghost use Rattle.loft_tree.specs.View.{named_of, head_of, declaration_of, source_of};
ghost use Rattle.loft_tree.specs.Fits.{DeclarationFits, SourceFits};
ghost use Rattle.loft_scopes.specs.Faults.{twice_from};
ghost use Rattle.loft_scopes.specs.FirstFault.{least_of};
ghost use Rattle.loft_scopes.specs.Scopes.{declared, declared_by, everywhere, module_declared, variables};
ghost use Rattle.loft_scopes.specs.Tables.{Declares, declared_of, sort_of};

use crate::counts::DeclarationCounts;
use crate::error::NameError;
use crate::first_fault::note;
use crate::scope::Scope;
use crate::table::{Entry, Sort, Table};
use loft_base::NoMemory;
use loft_tree::{Ident, Item, ModuleHead, Variable};
use std::alloc::Global;

/// The table with one declaration more; that it is declared before is noted.
fn declare<'a>(
    table: Table<'a>,
    declaration: Entry<'a>,
    least: &mut Option<NameError>,
) -> Result<Table<'a>, NoMemory>
    ensures { IfOk result (λ grown.
        Declares table.entry grown least.old least.new (declared_of declaration.entry ∷ [])) }
{
    if let Some(first) = table.earlier(&declaration) {
        note(
            least,
            NameError::Twice {
                at: declaration.name.at(),
                first: first.name.at(),
            },
        );
    }
    table.with(declaration)
}

/// What is seen in the whole program.
fn everywhere<'a>(name: &'a Ident, sort: Sort<'a>, number: u32) -> Entry<'a>
    ensures { declared_of result ≡ everywhere name.now (sort_of sort.entry) number }
{
    Entry {
        name,
        scope: Scope::Everywhere,
        sort,
        number,
    }
}

/// Parameters or local variables of a module, numbered from this number on.
fn declare_variables<'a>(
    table: Table<'a>,
    module: u32,
    from: u32,
    declarations: &'a [Variable],
    least: &mut Option<NameError>,
) -> Result<Table<'a>, NoMemory>
    requires { from + length declarations.now < 2 ^ 32 }
    ensures { IfOk result (λ grown.
        Declares table.entry grown least.old least.new
        (variables «module» from (map named_of declarations.now))) }
{
    let mut table = table;
    let mut number = from;
    for variable in declarations {
        let declaration = Entry {
            name: &variable.name,
            scope: Scope::Within(module),
            sort: Sort::Variable(variable.kind),
            number,
        };
        table = declare(table, declaration, least)?;
        number += 1;
    }
    Ok(table)
}

/// A module with its parameters and local variables.
fn declare_module<'a>(
    table: Table<'a>,
    number: u32,
    head: &'a ModuleHead,
    locals: &'a [Variable],
    least: &mut Option<NameError>,
) -> Result<Table<'a>, NoMemory>
    requires parameters { length (head_of head.now).parameters ≤ 8 }
    requires locals { length locals.now ≤ 32 }
    ensures { IfOk result (λ grown. Declares table.entry grown least.old least.new
        (module_declared number (head_of head.now) (map named_of locals.now))) }
{
    let parameters = head.parameters.as_slice();
    let declaration = everywhere(&head.name, Sort::Module(parameters), number);
    let table = declare(table, declaration, least)?;
    let table = declare_variables(table, number, 0, parameters, least)?;
    let first_local = parameters.len() as u32;
    declare_variables(table, number, first_local, locals, least)
}

/// What one declaration of the program declares.
fn declare_item<'a>(
    table: Table<'a>,
    sofar: DeclarationCounts,
    item: &'a Item,
    least: &mut Option<NameError>,
) -> Result<Table<'a>, NoMemory>
    requires { DeclarationFits (declaration_of item.now) }
    ensures { IfOk result (λ grown. Declares table.entry grown least.old least.new
        (declared_by sofar (declaration_of item.now))) }
{
    match item {
        Item::Scheduler(name) => {
            let declaration = everywhere(name, Sort::Scheduler, sofar.schedulers);
            declare(table, declaration, least)
        }
        Item::Event { name, .. } => {
            let declaration = everywhere(name, Sort::Event, sofar.events);
            declare(table, declaration, least)
        }
        Item::Shared { name, .. } => {
            let declaration = everywhere(name, Sort::Shared, sofar.shared);
            declare(table, declaration, least)
        }
        Item::Module { head, locals, .. } => {
            declare_module(table, sofar.modules, head, locals.as_slice(), least)
        }
        Item::Start {
            name: Some(name),
            ..
        } => {
            let declaration = everywhere(name, Sort::Start, sofar.starts);
            declare(table, declaration, least)
        }
        Item::Start { name: None, .. } => Ok(table),
        Item::Outside { name, .. } => {
            let declaration = everywhere(name, Sort::Client, sofar.clients);
            declare(table, declaration, least)
        }
    }
}

/// All that a program declares; the first declaration of a name that was declared before is noted.
pub fn declare_all<'a>(
    alloc: Global,
    items: &'a [Item],
    least: &mut Option<NameError>,
) -> Result<Table<'a>, NoMemory>
    requires { SourceFits (source_of items.now) }
    ensures table { IfOk result (λ table. table ≡ declared (source_of items.now)) }
    ensures faults { OnOk result (least.new ≡ least_of least.old
        (twice_from [] (declared (source_of items.now)))) }
{
    let mut table = Table::new(alloc);
    let mut sofar = DeclarationCounts::none();
    for item in items {
        table = declare_item(table, sofar, item, least)?;
        sofar = sofar.after(item);
    }
    Ok(table)
}
