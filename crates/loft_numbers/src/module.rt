//! Modules with their bodies.

ghost use Rattle.std.specs.Prelude.{◌≡◌, ◌<◌, ◌≤◌, ◌^◌, length, map, IfOk};
ghost use Rattle.loft_tree.specs.View.{source_of, statements_of};
ghost use Rattle.loft_tree.specs.ProgramView.{module_of};
ghost use Rattle.loft_tree.specs.Fits.{Each, DeclarationFits, size};
ghost use Rattle.loft_tree.specs.declared.limits.TheConstants.{MAX_STATEMENTS};
ghost use Rattle.loft_numbers.specs.Numbers.{modules_in};
ghost use Rattle.loft_numbers.specs.Numbers as numbers;
ghost use Rattle.loft_scopes.specs.declared.scope.Scope.TheVariants.{Within};

use crate::statement::body;
use loft_base::{NoMemory, Room};
use loft_scopes::{Scope, Table, next_module};
use loft_tree::{Ident, Item, Module, Stmt};
use std::alloc::Global;

/// The module with this number, which has this name and this body.
fn module(
    alloc: Global,
    table: &Table,
    number: u32,
    name: &Ident,
    statements: &[Stmt],
) -> Result<Module, NoMemory>
    requires { size (statements_of statements.now) ≤ MAX_STATEMENTS }
    ensures { IfOk result (λ m. module_of m ≡ record {
      at = name.now.at;
      body = numbers.body_of table.now (Within number) (statements_of statements.now) 0;
    }) }
{
    let mut room = Room::new(alloc);
    let mut stops = 0;
    let body = body(
        &mut room,
        table,
        Scope::Within(number),
        statements,
        &mut stops,
    );
    let body = room.done(body)?;
    Ok(Module {
        at: name.at(),
        body,
    })
}

/// The modules.
pub fn modules(alloc: Global, table: &Table, items: &[Item]) -> Result<Vec<Module>, NoMemory>
    requires few { length items.now < 2 ^ 32 }
    requires fits { Each DeclarationFits (source_of items.now) }
    ensures { IfOk result (λ all. map module_of all.items
        ≡ modules_in table.now 0 (source_of items.now)) }
{
    let mut all = Vec::new(alloc);
    let mut number = 0;
    for item in items {
        if let Item::Module { head, body, .. } = item {
            all.push(module(alloc, table, number, &head.name, body.as_slice())?)?;
        }
        number = next_module(number, item);
    }
    Ok(all)
}
